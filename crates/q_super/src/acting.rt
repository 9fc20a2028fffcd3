//! An act on one message.
ghost use Rattle.std.specs.Prelude.{◌≡◌, false, IfOk, IsErrOf, IsTrue, not, OnOk, true};
ghost use Rattle.q_host.specs.Calls.{Stays};
ghost use Rattle.q_model.specs.Lists.{has_none};
ghost use Rattle.q_model.specs.ToolSteps.{may_steps};
ghost use Rattle.q_super.specs.Deeds.{deeds_of, steps_in};
ghost use Rattle.q_super.specs.Finding.{IsSource};
ghost use Rattle.q_super.specs.Moves.{stands_there};
ghost use Rattle.q_super.specs.Plays.{HaltsDeeds, OnBook, PlaysDeeds};
ghost use Rattle.q_super.specs.Refusals.{EachError, EachFault, HostCause, ToolCause};
ghost use Rattle.q_super.specs.declared.error.SuperError.TheVariants as errors;

use crate::acts::{Act, goal_of, word_of};
use crate::error::SuperError;
use crate::expiring::expire;
use crate::finding::place_of;
use crate::moving::move_told;
use crate::standing::Standing;
use q_host::{Host, HostError};
use q_model::Id;
use std::alloc::Global;

/// Does the act with the file, and tells its line. `false` where nothing was done.
pub(crate) fn act_on<H: Host>(
    alloc: Global,
    host: &mut H,
    act: Act,
    file: Standing,
) -> Result<bool, HostError>
    requires { IsSource act file.id file.place }
    ensures ok { IfOk result (λ done. IsTrue H.tells → OnBook (H.view host.old) (λ b.
        stands_there b file ≡ true → (done ≡ not (has_none (deeds_of act file.id b)))
        × PlaysDeeds b (deeds_of act file.id b) (H.view host.old) (H.view host.new))) }
    ensures none { IfOk result (λ done. done ≡ false → IsTrue H.tells
        → Stays (H.view host.old) (H.view host.new)) }
    ensures err { EachError result (λ error. IsTrue H.tells → OnBook (H.view host.old) (λ b.
        stands_there b file ≡ true
        → HaltsDeeds b (deeds_of act file.id b) error (H.view host.old) (H.view host.new))) }
    ensures cause { HostCause (H.faults host.old) (H.faults host.new) result }
{
    match act {
        Act::Expire => expire(alloc, host, file),
        _ => move_told(alloc, host, word_of(act), file, goal_of(act)),
    }
}

/// Does the act with the message of an id. `false` where it stands nowhere where the act takes
/// messages from, or can't be given up.
fn act_by_id<H: Host>(alloc: Global, host: &mut H, act: Act, id: Id) -> Result<bool, HostError>
    ensures ok { IfOk result (λ done. IsTrue H.tells → OnBook (H.view host.old) (λ b.
        (done ≡ not (has_none (deeds_of act id b)))
        × PlaysDeeds b (deeds_of act id b) (H.view host.old) (H.view host.new))) }
    ensures none { IfOk result (λ done. done ≡ false → IsTrue H.tells
        → Stays (H.view host.old) (H.view host.new)) }
    ensures err { EachError result (λ error. IsTrue H.tells → OnBook (H.view host.old) (λ b.
        HaltsDeeds b (deeds_of act id b) error (H.view host.old) (H.view host.new))) }
    ensures cause { HostCause (H.faults host.old) (H.faults host.new) result }
{
    let Some(place) = place_of(alloc, host, act, id)? else {
        return Ok(false);
    };
    act_on(alloc, host, act, Standing { id, place })
}

/// Does the act with the message of an id, and tells the line `ACT ID`.
///
/// `Expire` takes the message to active and then stores the failure `expired` with code 0 of each
/// pending recipient, in order; the others move it, also where its file is no queue file. `Absent`
/// comes exactly where the id stands nowhere where the act takes messages from, or for `Expire` where
/// its file is no queue file, and nothing is changed then. In memory are the positions of the pending
/// recipients.
pub fn act<H: Host>(alloc: Global, host: &mut H, act: Act, id: Id) -> Result<(), SuperError>
    ensures ok { OnOk result (IsTrue H.tells → OnBook (H.view host.old) (λ b.
        PlaysDeeds b (deeds_of act id b) (H.view host.old) (H.view host.new))) }
    ensures err { EachFault result (λ error. IsTrue H.tells → OnBook (H.view host.old) (λ b.
        HaltsDeeds b (deeds_of act id b) error (H.view host.old) (H.view host.new))) }

    // Exactly where nothing is to be done.
    ensures some { OnOk result (IsTrue H.tells → OnBook (H.view host.old) (λ b.
        has_none (deeds_of act id b) ≡ false)) }
    ensures absent { IsErrOf result errors.Absent → IsTrue H.tells
        → OnBook (H.view host.old) (λ b. has_none (deeds_of act id b) ≡ true) }
    ensures untouched { IsErrOf result errors.Absent → IsTrue H.tells
        → Stays (H.view host.old) (H.view host.new) }
    ensures may { IsTrue H.tells → OnBook (H.view host.old) (λ b.
        may_steps b (steps_in (deeds_of act id b)) ≡ true) }
    ensures cause { ToolCause (H.faults host.old) (H.faults host.new) result }
{
    if !act_by_id(alloc, host, act, id)? {
        return Err(SuperError::Absent);
    }
    Ok(())
}
