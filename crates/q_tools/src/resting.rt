//! A task on the spool that a life has left.
ghost use Rattle.std.specs.Prelude.{◌≡◌, false, IfOk, IsErrOf, IsTrue, OnOk, true};
ghost use Rattle.q_host.specs.Calls.{Stays};
ghost use Rattle.q_host.specs.Faults.{DiskCause};
ghost use Rattle.q_super.specs.Refusals.{EachFault, ToolCause};
ghost use Rattle.q_super.specs.declared.error.SuperError.TheVariants as errors;
ghost use Rattle.q_tools.specs.Resting.{HasNoneActive};
ghost use Rattle.q_tools.specs.Tasks.{IsTask, may_lack, OnOrderly, StopsWork, Works, WorksOthers};

use crate::task::{Task, work};
use q_host::{Host, HostError};
use q_model::{Area, LAST_MOMENT, id_of};
use q_scan::Scan;
use q_super::SuperError;
use std::alloc::Global;

/// Whether the file of a message stands in active.
fn has_active<H: Host>(alloc: Global, host: &mut H) -> Result<bool, HostError>
    ensures none { IfOk result (λ found. IsTrue H.tells → found ≡ false
        → HasNoneActive (H.view host.old).files) }
    ensures stays { IsTrue H.tells → Stays (H.view host.old) (H.view host.new) }
    ensures cause { DiskCause (H.faults host.old) (H.faults host.new) result }
{
    let mut scan = Scan::new(alloc, Area::Active)?;
    loop {
        let Some(name) = scan.next(host, LAST_MOMENT)? else {
            return Ok(false);
        };
        if id_of(name).is_some() {
            return Ok(true);
        }
    }
}

/// Does the task, where no message stands in active. A life makes at most 2^60 decisions behind its
/// moment, so it may leave one there on a spool that no disk holds; that is given up as for want of
/// memory.
pub(crate) fn work_at_rest<H: Host>(
    alloc: Global,
    host: &mut H,
    task: &Task,
) -> Result<(), SuperError>
    requires { IsTask task.now }
    ensures ok { OnOk result (IsTrue H.tells → OnOrderly (H.view host.old) (λ b.
        Works task.now b (H.view host.old) (H.view host.new))) }
    ensures err { EachFault result (λ error. IsTrue H.tells → OnOrderly (H.view host.old) (λ b.
        StopsWork task.now b error (H.view host.old) (H.view host.new))) }
    ensures absent { IsErrOf result errors.Absent → IsTrue H.tells
        → OnOrderly (H.view host.old) (λ b.
        WorksOthers task.now b (H.view host.old) (H.view host.new)) }
    ensures named { IsErrOf result errors.Absent → may_lack task.now ≡ true }
    ensures cause { ToolCause (H.faults host.old) (H.faults host.new) result }
{
    if has_active(alloc, host)? {
        return Err(SuperError::NoMemory);
    }
    work(alloc, host, task)
}
