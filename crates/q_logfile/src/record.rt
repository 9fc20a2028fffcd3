//! A record of a log.
ghost use Rattle.std.specs.Prelude.{◌≡◌, ◌<◌, ◌^◌, ◌++◌, length, OnOk, Some, None};
ghost use Rattle.q_model.specs.FailureLog.{failure_bytes, failure_in, is_log_code, note_in, why_byte, why_of};
ghost use Rattle.q_logfile.specs.OpenRecords.{open_record};

use q_model::{Failure, NoMemory, Note, Why};

/// How many bytes a record has.
pub(crate) const SIZE: usize = 8;

/// The gate of a record that counts, and the gate behind the last one.
pub(crate) const OPEN: u8 = b'O';

pub(crate) const CLOSED: u8 = 0;

/// A record whose gate is open and whose code is lawful.
#[derive(Clone, Copy, Debug)]
struct OpenRecord {
    why: u8,
    code: u16,
    position: u32,
}

/// No code, or one of a reply that refuses (RFC 5321, section 4.2).
fn is_code(code: u16) -> bool
    ensures { result ≡ is_log_code code }
{
    code == 0 || (code >= 400 && code <= 599)
}

fn open_record(bytes: &[u8]) -> Option<OpenRecord>
    requires { length bytes.now ≡ 8 }
    ensures { result ≡ open_record bytes.now }
{
    let code = u16::from_be_bytes([bytes[2], bytes[3]]);
    if bytes[0] != OPEN || !is_code(code) {
        return None;
    }
    Some(OpenRecord {
        why: bytes[1],
        code,
        position: u32::from_be_bytes([bytes[4], bytes[5], bytes[6], bytes[7]]),
    })
}

fn why_of(byte: u8) -> Option<Why>
    ensures { result ≡ why_of byte }
{
    match byte {
        b'R' => Some(Why::Refused),
        b'X' => Some(Why::Expired),
        _ => None,
    }
}

/// The failure of a record.
pub(crate) fn failure(bytes: &[u8]) -> Option<Failure>
    requires { length bytes.now ≡ 8 }
    ensures { result ≡ failure_in bytes.now }
{
    let open = open_record(bytes)?;
    let why = why_of(open.why)?;
    Some(Failure {
        position: open.position,
        why,
        code: open.code,
    })
}

/// The note of a record.
pub(crate) fn note(bytes: &[u8]) -> Option<Note>
    requires { length bytes.now ≡ 8 }
    ensures { result ≡ note_in bytes.now }
{
    let open = open_record(bytes)?;
    if open.why != b'L' {
        return None;
    }
    Some(Note {
        position: open.position,
        code: open.code,
    })
}

pub(crate) fn why_byte(why: Why) -> u8
    ensures { result ≡ why_byte why }
{
    match why {
        Why::Refused => b'R',
        Why::Expired => b'X',
    }
}

/// Adds the open record of a failure.
pub(crate) fn push_failure(log: &mut Vec<u8>, failure: Failure) -> Result<(), NoMemory>
    ensures written { OnOk result (log.new.items ≡ log.old.items ++ failure_bytes failure) }
    ensures fits { failure.position < 2 ^ 32 }
{
    log.push(OPEN)?;
    log.push(why_byte(failure.why))?;
    log.extend_from_slice(&failure.code.to_be_bytes())?;
    log.extend_from_slice(&failure.position.to_be_bytes())?;
    Ok(())
}
