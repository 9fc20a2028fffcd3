//! The failures of a message by its log.
ghost use Rattle.std.specs.Prelude.{◌≡◌, ◌≤◌, ◌<◌, ◌∷◌, ◌++◌, [], All, Bool, IfOk, IsTrue, length, List, map, OnOk, ℕ};
ghost use Rattle.q_engine.specs.BounceTexts.{AreKnown};
ghost use Rattle.q_host.specs.Calls.{Stays};
ghost use Rattle.q_host.specs.Faults.{DiskCause};
ghost use Rattle.q_model.specs.declared.outcome.Failure.{Failure as FailureValue};
ghost use Rattle.q_model.specs.FailureLog.{failures_of};
ghost use Rattle.q_model.specs.SpoolFiles.{logged_in};

use q_host::{Host, HostError};
use q_logfile::log_of;
use q_model::{Failure, Id, NoMemory, Positions, Records};
use std::alloc::Global;

/// Which positions have a failure, and the first failure of each.
#[derive(Drop)]
struct Known {
    flags: Vec<bool>,
    failures: Records,
}

impl Known {
    /// Takes a record over. It is passed over where its position isn't one of a recipient, or where
    /// an earlier one has it.
    fn add(&mut self, failure: Failure) -> Result<(), NoMemory>
        ensures { OnOk result ((n : ℕ) (records : List FailureValue)
            → AreKnown n records self.old.flags.items self.old.failures
            → AreKnown n (records ++ failure ∷ []) self.new.flags.items self.new.failures) }
    {
        let position = failure.position as usize;
        if position >= self.flags.len() {
            return Ok(());
        }
        if self.flags[position] {
            return Ok(());
        }
        self.failures.push(failure)?;
        self.flags[position] = true;
        Ok(())
    }
}

/// The failures of so many recipients by these records.
fn failures_by(alloc: Global, records: &[Failure], recipients: u32) -> Result<Records, NoMemory>
    ensures failures { IfOk result (λ failures. failures ≡ failures_of recipients records.now) }
    ensures few { IfOk result (λ failures. length failures ≤ recipients) }
{
    let flags = vec![in alloc; false; recipients as usize]?;
    let failures = Records::new(alloc);
    let mut known = Known { flags, failures };
    for record in records {
        known.add(*record)?;
    }
    Ok(known.failures)
}

/// The failures of a message with so many recipients, by the log of its id. There are none where
/// there is no log.
pub(crate) fn failures_at<H: Host>(
    alloc: Global,
    host: &mut H,
    id: Id,
    recipients: u32,
) -> Result<Records, HostError>
    ensures failures { IfOk result (λ failures. IsTrue H.tells
        → failures ≡ failures_of recipients (logged_in (H.view host.old).files id)) }
    ensures within { IfOk result (λ failures. All (λ f. f.position < recipients) failures) }
    ensures few { IfOk result (λ failures. length failures ≤ recipients) }
    ensures stays { IsTrue H.tells → Stays (H.view host.old) (H.view host.new) }
    ensures cause { DiskCause (H.faults host.old) (H.faults host.new) result }
{
    let records = log_of(alloc, host, id)?;
    Ok(failures_by(alloc, records.as_slice(), recipients)?)
}

/// The positions of failures, in their order.
pub(crate) fn positions_of(alloc: Global, failures: &[Failure]) -> Result<Positions, NoMemory>
    ensures { IfOk result (λ positions. positions ≡ map (λ f. f.position) failures.now) }
{
    let mut positions = Positions::new(alloc);
    for failure in failures {
        positions.push(failure.position)?;
    }
    Ok(positions)
}
