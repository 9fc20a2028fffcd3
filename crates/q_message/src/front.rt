//! The record at the front of bytes.
ghost use Rattle.std.specs.Prelude.{◌≡◌, drop, option_copied};
ghost use Rattle.q_message.specs.Fronts.{begins_record, front_body};

use q_record::get;

/// The bytes from an offset on; none, where there are fewer.
pub(crate) fn from_offset(bytes: &[u8], offset: u64) -> &[u8]
    ensures { result.now ≡ drop offset bytes.now }
{
    if offset > bytes.len() as u64 {
        return &bytes[bytes.len()..];
    }
    &bytes[offset as usize..]
}

/// The body of a record of this kind at the front.
pub(crate) fn front_body(bytes: &[u8], kind: u8) -> Option<&[u8]>
    ensures { option_copied result ≡ front_body kind bytes.now }
{
    let Ok(record) = get(bytes, 0) else {
        return None;
    };
    if record.kind != kind {
        return None;
    }
    Some(&bytes[record.from..record.to])
}

/// Whether a record of this kind and this length begins here, whole or not.
pub(crate) fn begins_record(bytes: &[u8], kind: u8, length: u32) -> bool
    ensures { result ≡ begins_record kind length bytes.now }
{
    let [first, behind @ ..] = bytes else {
        return false;
    };
    if *first != kind || behind.len() < 4 {
        return false;
    }
    u32::from_be_bytes([behind[0], behind[1], behind[2], behind[3]]) == length
}
