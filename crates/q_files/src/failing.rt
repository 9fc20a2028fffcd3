//! Storing a failure in the log of its message.
ghost use Rattle.std.specs.Prelude.{◌≡◌, ◌∷◌, ◌++◌, [], None, Some, true, unwrap_or, IfOk, IsTrue, OnErr, OnOk};
ghost use Rattle.std.specs.List.{AllByRecursion};
ghost use Rattle.std.specs.Option.{IsSomeAnd};
ghost use Rattle.q_host.specs.Faults.{DiskCause};
ghost use Rattle.q_host.specs.View.{Told};
ghost use Rattle.q_model.specs.declared.entry.Entry.TheVariants as entries;
ghost use Rattle.q_model.specs.declared.spot.Area.TheVariants as areas;
ghost use Rattle.q_model.specs.CutOff.{cut_off};
ghost use Rattle.q_model.specs.FailureLog.{IsFailure, is_log_code, log_records};
ghost use Rattle.q_model.specs.IdTexts.{id_text};
ghost use Rattle.q_model.specs.SpoolFiles.{logged_in};
ghost use Rattle.q_logfile.specs.Appends.{appendable};
ghost use Rattle.q_logfile.specs.Codes.{are_log_codes};
ghost use Rattle.q_logfile.specs.HasRecords.{HasRecords};
ghost use Rattle.q_books.specs.HostStands.{KeepsNotes, TakesBy, TriesBy, TriesLooselyBy};
ghost use Rattle.q_files.specs.Changes.{AddsFailure};
ghost use Rattle.q_files.specs.FailureLogs.{LogsFailure};

use q_host::{Host, HostError, read_file};
use q_logfile::{append, appendable, records, replace};
use q_model::{Area, Failure, Id, NoMemory, Records, Spot, id_name};
use std::alloc::Global;

/// The records of a log, whatever their positions, and one more behind them.
fn one_more(alloc: Global, log: &[u8], failure: Failure) -> Result<Records, NoMemory>
    requires { is_log_code failure.code ≡ true }
    ensures records { IfOk result (λ records. records ≡ log_records log.now ++ failure ∷ []) }
    ensures codes { IfOk result (λ records. are_log_codes records ≡ true) }
    ensures lawful { IfOk result (λ records. AllByRecursion IsFailure records) }
{
    // It fits in the four bytes that a record has for it.
    let _position = failure.position;
    let mut records = records(alloc, log)?;
    records.push(failure)?;
    Ok(records)
}

/// Writes the log, which was read, anew with a failure more.
fn replace_log<H: Host>(
    alloc: Global,
    host: &mut H,
    id: Id,
    log: &[u8],
    failure: Failure,
) -> Result<(), HostError>
    requires code { is_log_code failure.code ≡ true }
    requires anew { appendable log.now ≡ None }
    requires read { IsTrue H.tells
        → log.now ≡ unwrap_or ((H.view host.old).files areas.Bounce (id_text id)) [] }
    ensures ok { OnOk result (TakesBy (AddsFailure id failure) H.tells H.view host.old host.new) }
    ensures err { OnErr result (TriesBy (AddsFailure id failure) H.tells H.view host.old host.new) }
    ensures log { OnOk result (Told H.tells H.view host.old host.new (LogsFailure id failure)) }
    ensures records { OnOk result (IsTrue H.tells
        → HasRecords (H.view host.new).files areas.Bounce (id_text id)
        (logged_in (H.view host.old).files id ++ failure ∷ [])) }
    ensures notes { IsTrue H.tells → KeepsNotes (H.view host.old) (H.view host.new) }
    ensures cause { DiskCause (H.faults host.old) (H.faults host.new) result }
{
    let name = id_name(id);
    let records = one_more(alloc, log, failure)?;
    let area = Area::Bounce;
    replace(alloc, host, Spot { area, name }, &records)
}

/// Appends a failure to the log.
///
/// The log is synced first. A crash might else leave it with other bytes that stand for the same
/// failures, and torn bytes behind those might read as a failure that never was.
fn append_to_log<H: Host>(
    host: &mut H,
    id: Id,
    count: u32,
    failure: Failure,
) -> Result<(), HostError>
    requires code { is_log_code failure.code ≡ true }
    requires appended { IsTrue H.tells
        → IsSomeAnd ((H.view host.old).files areas.Bounce (id_text id))
        (λ log. appendable log ≡ Some count) }
    ensures ok { OnOk result (TakesBy (AddsFailure id failure) H.tells H.view host.old host.new) }
    ensures err { OnErr result (TriesLooselyBy (AddsFailure id failure)
        (cut_off (entries.Log id failure)) H.tells H.view host.old host.new) }
    ensures log { OnOk result (Told H.tells H.view host.old host.new (LogsFailure id failure)) }
    ensures records { OnOk result (IsTrue H.tells
        → HasRecords (H.view host.new).files areas.Bounce (id_text id)
        (logged_in (H.view host.old).files id ++ failure ∷ [])) }
    ensures notes { IsTrue H.tells → KeepsNotes (H.view host.old) (H.view host.new) }
    ensures cause { DiskCause (H.faults host.old) (H.faults host.new) result }
{
    // It fits in the four bytes that a record has for it.
    let _position = failure.position;
    let name = id_name(id);
    let area = Area::Bounce;
    host.sync(area, name)?;
    append(host, Spot { area, name }, count, failure)?;
    Ok(())
}

/// Stores that a recipient of a message failed, in the failure log of the id: behind the records
/// that it has, foreign and repeated positions among them.
///
/// The first failure of a log is stored by writing the log anew, and so is one behind which no
/// closed gate stands; any other is appended. The message stands in active, and the recipient is
/// pending. It is an error to call it with a code that is neither 0 nor 400 to 599. The log is held
/// in memory whole.
pub fn store_failure<H: Host>(
    alloc: Global,
    host: &mut H,
    id: Id,
    failure: Failure,
) -> Result<(), HostError>
    requires { is_log_code failure.code ≡ true }
    ensures ok { OnOk result (TakesBy (AddsFailure id failure) H.tells H.view host.old host.new) }

    // Where an append was given up, the failure may be one that a crash still takes away.
    ensures err { OnErr result (TriesLooselyBy (AddsFailure id failure)
        (cut_off (entries.Log id failure)) H.tells H.view host.old host.new) }
    ensures log { OnOk result (Told H.tells H.view host.old host.new (LogsFailure id failure)) }

    // Every record that was read stays.
    ensures records { OnOk result (IsTrue H.tells
        → HasRecords (H.view host.new).files areas.Bounce (id_text id)
        (logged_in (H.view host.old).files id ++ failure ∷ [])) }
    ensures notes { IsTrue H.tells → KeepsNotes (H.view host.old) (H.view host.new) }
    ensures cause { DiskCause (H.faults host.old) (H.faults host.new) result }
{
    let log = read_file(alloc, host, Area::Bounce, id_name(id))?;
    let Some(count) = appendable(alloc, &log)? else {
        return replace_log(alloc, host, id, &log, failure);
    };
    append_to_log(host, id, count, failure)
}
