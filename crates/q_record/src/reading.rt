//! Reading a record.
ghost use Rattle.std.specs.Prelude.{◌≡◌, ◌≤◌, length, drop, IfOk};
ghost use Rattle.q_record.specs.Reading.{IsRecord, length_from, ReadsWritten, record_from};

use crate::RecError;
use crate::kind::{is_kind, is_length};

/// A record in a row of bytes: its kind, the offset where its body begins, and the one behind it.
#[derive(Clone, Copy, Debug, PartialEq, Eq)]
pub struct Rec {
    pub kind: u8,
    pub from: usize,
    pub to: usize,
}

/// The length of the body of a record of this kind, from the bytes behind the kind.
fn body_length(kind: u8, bytes: &[u8]) -> Result<usize, RecError>
    ensures { result ≡ length_from kind bytes.now }
{
    if !is_kind(kind) {
        return Err(RecError::BadKind);
    }
    if bytes.len() < 4 {
        return Err(RecError::NotWhole);
    }
    let length = u32::from_be_bytes([bytes[0], bytes[1], bytes[2], bytes[3]]);
    if !is_length(kind, length) {
        return Err(RecError::BadLength);
    }
    Ok(length as usize)
}

/// The record that begins at an offset.
pub fn get(bytes: &[u8], at: usize) -> Result<Rec, RecError>
    requires { at ≤ length bytes.now }
    ensures exact { result ≡ record_from at (drop at bytes.now) }
    // What is read was written so.
    ensures found { IfOk result (λ r. IsRecord bytes.now at r) }
    // What is written is read, whatever follows.
    ensures again { ReadsWritten bytes.now at result }
{
    let (_, rest) = bytes.split_at(at);
    let [kind, behind @ ..] = rest else {
        return Err(RecError::NotWhole);
    };
    let length = body_length(*kind, behind)?;
    if behind.len() - 4 < length {
        return Err(RecError::NotWhole);
    }
    let from = at + 5;
    Ok(Rec {
        kind: *kind,
        from,
        to: from + length,
    })
}
