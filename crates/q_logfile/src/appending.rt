//! Appending a record to a failure log, in place.
ghost use Rattle.std.specs.Prelude.{◌≡◌, ◌<◌, ◌^◌, ◌*◌, Some, true, IfOk, IsTrue, OnErr, OnOk};
ghost use Rattle.std.specs.Option.{IsSomeAnd};
ghost use Rattle.q_host.specs.Faults.{DiskCause};
ghost use Rattle.q_host.specs.View.{Told};
ghost use Rattle.q_model.specs.FailureLog.{is_log_code};
ghost use Rattle.q_logfile.specs.Appends.{AddsRecord, appendable, AppendsLog, behind_gate, is_closed_at, LeavesOldOrOneMore, MayAppendLog};

use crate::reading::records;
use crate::record::{CLOSED, OPEN, SIZE, why_byte};
use q_host::{Host, HostError};
use q_model::{Area, Failure, Name, NoMemory, Spot};
use std::alloc::Global;

/// Whether a gate stands at this place, and is closed.
fn is_closed_at(log: &[u8], place: usize) -> bool
    ensures { result ≡ is_closed_at log.now place }
{
    place < log.len() && log[place] != OPEN
}

/// How many records a failure log has, where one more can be appended behind them: it has one, and
/// a closed gate stands behind its last.
pub fn appendable(alloc: Global, log: &[u8]) -> Result<Option<u32>, NoMemory>
    ensures { IfOk result (λ count. count ≡ appendable log.now) }
{
    let count = records(alloc, log)?.len();
    if count == 0 || !is_closed_at(log, count * SIZE) {
        return Ok(None);
    }
    Ok(u32::try_from(count).ok())
}

/// What stands behind the gate of a last record: its other bytes, and a closed gate.
fn behind_gate(failure: Failure) -> [u8; SIZE]
    ensures bytes { result ≡ behind_gate failure }
    ensures fits { failure.position < 2 ^ 32 }
{
    let code = failure.code.to_be_bytes();
    let at = failure.position.to_be_bytes();
    let why = why_byte(failure.why);
    [why, code[0], code[1], at[0], at[1], at[2], at[3], CLOSED]
}

/// The offset of the gate behind so many records.
fn gate_behind(count: u32) -> u64
    ensures { result ≡ 8 * count }
{
    u64::from(count) * SIZE as u64
}

/// The record counts from the moment that its gate is open. So the gate opens only where the disk
/// is sure of all that stands behind it.
fn append_record<H: Host>(
    host: &mut H,
    area: Area,
    name: Name,
    count: u32,
    failure: Failure,
) -> Result<(), HostError>
    requires records { IsTrue H.tells → IsSomeAnd ((H.view host.old).files area name)
        (λ log. appendable log ≡ Some count) }
    requires code { is_log_code failure.code ≡ true }
    ensures ok { OnOk result
        (Told H.tells H.view host.old host.new (AppendsLog area name failure)) }
    ensures err { OnErr result
        (Told H.tells H.view host.old host.new (MayAppendLog area name failure)) }
    ensures again { OnOk result
        (Told H.tells H.view host.old host.new (AddsRecord area name failure)) }
    ensures cause { DiskCause (H.faults host.old) (H.faults host.new) result }
{
    let gate = gate_behind(count);
    let record = behind_gate(failure);
    host.write_at(area, name, gate + 1, &record)?;
    host.sync(area, name)?;
    host.write_at(area, name, gate, &[OPEN])?;
    host.sync(area, name)
}

/// Appends a record to a failure log in place, behind so many records.
///
/// The record is written behind the closed gate, with a closed gate behind it, and synced; then its
/// own gate is opened, and synced. What a crash leaves before that is known only where the disk had
/// the log as reads gave it: sync it first, where it may not. It is an error to call it for a log
/// that has another number of records or none, or no closed gate behind them, or with a code that
/// is neither 0 nor 400 to 599.
pub fn append<H: Host>(
    host: &mut H,
    spot: Spot,
    count: u32,
    failure: Failure,
) -> Result<(), HostError>
    requires records { IsTrue H.tells
        → IsSomeAnd ((H.view host.old).files spot.area spot.name)
        (λ log. appendable log ≡ Some count) }
    requires code { is_log_code failure.code ≡ true }
    // After Ok reads and every crash give the log with the record, and all else as before.
    ensures ok { OnOk result
        (Told H.tells H.view host.old host.new (AppendsLog spot.area spot.name failure)) }

    // After a refusal both give the records as before, or reads give one more and crashes may.
    ensures err { OnErr result
        (Told H.tells H.view host.old host.new (MayAppendLog spot.area spot.name failure)) }

    // After Ok the record is read behind those before, also behind every crash.
    ensures again { OnOk result
        (Told H.tells H.view host.old host.new (AddsRecord spot.area spot.name failure)) }

    // A crash at any moment of the call leaves the records as before, or one more.
    ensures any_moment { Told H.tells H.view host.old host.new
        (LeavesOldOrOneMore spot.area spot.name failure) }
    ensures cause { DiskCause (H.faults host.old) (H.faults host.new) result }
{
    append_record(host, spot.area, spot.name, count, failure)
}
