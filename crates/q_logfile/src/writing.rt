//! Writing a log anew.
ghost use Rattle.std.specs.Prelude.{◌≡◌, ◌≢◌, true, IfOk, OnErr, OnOk, IsTrue};
ghost use Rattle.std.specs.List.{AllByRecursion};
ghost use Rattle.q_host.specs.Faults.{DiskCause};
ghost use Rattle.q_host.specs.View.{Told};
ghost use Rattle.q_model.specs.declared.spot.Area.TheVariants.{Tmp};
ghost use Rattle.q_model.specs.FailureLog.{IsFailure, log_bytes};
ghost use Rattle.q_logfile.specs.Codes.{are_log_codes};
ghost use Rattle.q_logfile.specs.HasRecords.{HasRecords, LeavesRecords};
ghost use Rattle.q_logfile.specs.StoredLogs.{HoldsLog, LeavesLog, MayGoLog, MayHoldLog};
ghost use Rattle.q_logfile.specs.TmpNames.{log_prefix, tmp_name};

use crate::record::{CLOSED, push_failure};
use q_host::{Host, HostError};
use q_model::{Area, Name, NoMemory, Records, Spot};
use q_store::store_file;
use std::alloc::Global;

fn log_prefix(area: Area) -> &'static [u8]
    ensures { result.now ≡ log_prefix area }
{
    match area {
        Area::Defer => b"def-",
        _ => b"log-",
    }
}

/// The name in tmp of a log that is to have this name in this area.
fn tmp_name(alloc: Global, area: Area, name: Name) -> Result<Name, NoMemory>
    ensures { IfOk result (λ tmp. tmp ≡ tmp_name area name) }
{
    let mut text = Vec::new(alloc);
    text.extend_from_slice(log_prefix(area))?;
    text.extend_from_slice(name.bytes())?;
    Ok(Name::new(&text).unwrap_or(name))
}

/// The bytes of a log: each record open, and a closed gate.
fn log_bytes(alloc: Global, failures: &Records) -> Result<Vec<u8>, NoMemory>
    requires { are_log_codes failures.now ≡ true }
    ensures written { IfOk result (λ log. log.items ≡ log_bytes failures.now) }
    ensures lawful { IfOk result (λ log. AllByRecursion IsFailure failures.now) }
{
    let mut log = Vec::new(alloc);
    for failure in failures.as_slice() {
        push_failure(&mut log, *failure)?;
    }
    log.push(CLOSED)?;
    Ok(log)
}

/// The log is made before the disk is touched.
fn store_log<H: Host>(
    alloc: Global,
    host: &mut H,
    area: Area,
    name: Name,
    failures: &Records,
) -> Result<(), HostError>
    requires place { area ≢ Tmp }
    requires codes { are_log_codes failures.now ≡ true }
    ensures ok { OnOk result (Told H.tells H.view host.old host.new (HoldsLog area name failures.now)) }
    ensures err { OnErr result (Told H.tells H.view host.old host.new (MayHoldLog area name failures.now)) }
    ensures again { OnOk result (IsTrue H.tells → HasRecords (H.view host.new).files area name failures.now) }
    ensures left { OnOk result (IsTrue H.tells → LeavesRecords (H.view host.new) area name failures.now) }
    ensures goes { Told H.tells H.view host.old host.new (MayGoLog area name failures.now) }
    ensures cause { DiskCause (H.faults host.old) (H.faults host.new) result }
{
    let tmp = tmp_name(alloc, area, name)?;
    let log = log_bytes(alloc, failures)?;
    store_file(host, tmp, Spot { area, name }, &log)?;
    Ok(())
}

/// Writes a failure log anew, in place of any file at its place. It is written in tmp and synced
/// before it is renamed; its name in tmp is `log-` (in area defer `def-`) and its own, or its own
/// alone where a name has no room for both. It is an error to call it for a place in tmp, or with a
/// code that is neither 0 nor 400 to 599.
pub fn replace<H: Host>(
    alloc: Global,
    host: &mut H,
    spot: Spot,
    failures: &Records,
) -> Result<(), HostError>
    requires place { spot.area ≢ Tmp }
    requires codes { are_log_codes failures.now ≡ true }
    // After Ok reads and every crash give the log whole, and all but its name in tmp as before.
    ensures ok { OnOk result (Told H.tells H.view host.old host.new (HoldsLog spot.area spot.name failures.now)) }

    // After a refusal reads and crashes alike give the new log, or both give what stood there.
    ensures err { OnErr result (Told H.tells H.view host.old host.new (MayHoldLog spot.area spot.name failures.now)) }

    // After Ok the records of the log are the failures, also behind every crash.
    ensures again { OnOk result (IsTrue H.tells → HasRecords (H.view host.new).files spot.area spot.name failures.now) }
    ensures left { OnOk result (IsTrue H.tells → LeavesRecords (H.view host.new) spot.area spot.name failures.now) }

    // A crash at any moment of the call leaves the new log, or what a crash might have left before.
    ensures any_moment { Told H.tells H.view host.old host.new (LeavesLog spot.area spot.name failures.now) }
    ensures cause { DiskCause (H.faults host.old) (H.faults host.new) result }
{
    store_log(alloc, host, spot.area, spot.name, failures)
}
