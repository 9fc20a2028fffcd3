//! The kinds of records, and the lengths of their bodies.
ghost use Rattle.std.specs.Prelude.{◌≡◌};
ghost use Rattle.q_record.specs.Kinds.{is_kind, is_length};

use q_model::MOST_CONTENT_BYTES;

/// Counts, arrival, sender, original address, recipient, content and end.
pub(crate) fn is_kind(kind: u8) -> bool
    ensures { result ≡ is_kind kind }
{
    matches!(kind, b'C' | b'T' | b'S' | b'O' | b'R' | b'N' | b'E')
}

pub(crate) fn is_length(kind: u8, length: u32) -> bool
    ensures { result ≡ is_length kind length }
{
    match kind {
        b'C' => length == 12,
        b'T' => length == 8,
        b'S' | b'O' => length == 0 || (length >= 3 && length <= 254),
        b'R' => length >= 4 && length <= 255,
        b'N' => length <= MOST_CONTENT_BYTES,
        b'E' => length == 0,
        _ => false,
    }
}
