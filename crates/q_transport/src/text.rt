//! The names of transports, blanks, and lower case.
ghost use Rattle.std.specs.Prelude.{◌≡◌, ◌<◌, IfOk, IfSome, length, map, position};
ghost use Rattle.std.specs.List.{list_all};
ghost use Rattle.q_model.specs.Texts.{lower};
ghost use Rattle.q_text.specs.Blanks.{is_blank};
ghost use Rattle.q_transport.specs.Texts.{is_transport, is_transport_byte};

use q_text::is_blank;
use std::alloc::{AllocError, Global};

fn are_transport_bytes(name: &[u8]) -> bool
    ensures { result ≡ list_all is_transport_byte name.now }
{
    name.iter()
        .all(|b| matches!(*b, b'a'..=b'z' | b'0'..=b'9' | b'_' | b'-'))
}

/// Whether a text has the form of a transport's name.
pub(crate) fn is_transport(name: &[u8]) -> bool
    ensures { result ≡ is_transport name.now }
{
    let filled = !name.is_empty();
    let short = name.len() <= 32;
    let lawful = are_transport_bytes(name);
    filled & short & lawful
}

/// The place of the first blank.
pub(crate) fn blank(line: &[u8]) -> Option<usize>
    ensures exact { result ≡ position is_blank line.now }
    ensures within { IfSome result (λ at. at < length line.now) }
{
    line.iter().position(|b| is_blank(*b))
}

fn lower(byte: u8) -> u8
    ensures { result ≡ lower byte }
{
    byte.to_ascii_lowercase()
}

/// A text in lower case.
pub(crate) fn lowered(alloc: Global, text: &[u8]) -> Result<Vec<u8>, AllocError>
    ensures { IfOk result (λ bytes. bytes.items ≡ map lower text.now) }
{
    text.iter().map(|b| lower(*b)).collect(alloc)
}
