//! What a tool is to do.
ghost use Rattle.std.specs.Prelude.{◌≡◌, false, IfOk, IsErrOf, IsTrue, OnOk, true};
ghost use Rattle.q_model.specs.ToolSteps.{may_steps};
ghost use Rattle.q_super.specs.Deeds.{steps_in};
ghost use Rattle.q_super.specs.Plays.{HaltsDeeds, OnBook, PlaysDeeds};
ghost use Rattle.q_super.specs.Refusals.{EachFault, ToolCause};
ghost use Rattle.q_super.specs.declared.error.SuperError.TheVariants as errors;
ghost use Rattle.q_tools.specs.Tasks.{deeds_for, IsTask, lacks_some, may_lack};

use q_host::Host;
use q_model::{Hop, Id};
use q_super::{Act, Ids, SuperError, each, every, flush};
use std::alloc::Global;

/// What a tool is to do.
#[derive(Debug, Drop)]
pub enum Task {
    /// The act, with the message of an id.
    One { act: Act, id: Id },
    /// The act, with the message of each of these ids, in order.
    Each { act: Act, ids: Ids },
    /// The act, which is none but `Expire`, with all messages that it takes.
    All { act: Act },
    /// The deferred messages for a domain come in anew.
    Flush { domain: Hop },
}

/// Does the task on a spool at rest.
pub(crate) fn work<H: Host>(alloc: Global, host: &mut H, task: &Task) -> Result<(), SuperError>
    requires { IsTask task.now }
    ensures ok { OnOk result (IsTrue H.tells → OnBook (H.view host.old) (λ b.
        (lacks_some task.now b ≡ false)
        × PlaysDeeds b (deeds_for task.now b) (H.view host.old) (H.view host.new))) }
    ensures err { EachFault result (λ error. IsTrue H.tells → OnBook (H.view host.old) (λ b.
        HaltsDeeds b (deeds_for task.now b) error (H.view host.old) (H.view host.new))) }
    ensures absent { IsErrOf result errors.Absent → IsTrue H.tells → OnBook (H.view host.old) (λ b.
        (lacks_some task.now b ≡ true)
        × PlaysDeeds b (deeds_for task.now b) (H.view host.old) (H.view host.new)) }
    ensures named { IsErrOf result errors.Absent → may_lack task.now ≡ true }
    ensures may { IsTrue H.tells → OnBook (H.view host.old) (λ b.
        may_steps b (steps_in (deeds_for task.now b)) ≡ true) }
    ensures cause { ToolCause (H.faults host.old) (H.faults host.new) result }
{
    match task {
        Task::One { act, id } => q_super::act(alloc, host, *act, *id),
        Task::Each { act, ids } => each(alloc, host, *act, ids),
        Task::All { act } => match every(alloc, host, *act) {
            Ok(_) => Ok(()),
            Err(error) => Err(error),
        },
        Task::Flush { domain } => match flush(alloc, host, domain) {
            Ok(_) => Ok(()),
            Err(error) => Err(error),
        },
    }
}
