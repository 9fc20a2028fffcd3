//! An act on all messages that it takes.
ghost use Rattle.std.specs.Prelude.{◌≡◌, ◌≢◌, IfOk, IsErrOf, IsTrue, true};
ghost use Rattle.q_model.specs.ToolSteps.{may_steps};
ghost use Rattle.q_super.specs.Deeds.{all_deeds, moved_count, steps_in};
ghost use Rattle.q_super.specs.Plays.{HaltsDeeds, OnBook, PlaysDeeds};
ghost use Rattle.q_super.specs.Refusals.{EachFault, ToolCause};
ghost use Rattle.q_super.specs.Standings.{taken};
ghost use Rattle.q_super.specs.declared.acts.Act.TheVariants as acts;
ghost use Rattle.q_super.specs.declared.error.SuperError.TheVariants as errors;

use crate::acts::{Act, goal_of, word_of};
use crate::error::SuperError;
use crate::moving::move_each;
use crate::taking::taken;
use q_host::Host;
use std::alloc::Global;

/// Does the act with all messages that stand at its beginning where it takes them from, in the order
/// of the areas incoming, deferred and hold and in each in the order of the files' names: each is
/// moved and then told by the line `ACT ID`. Answers how many were moved, at most 2^32 - 1. Files that
/// are no queue files are moved too.
///
/// `Absent` never comes. It is an error to call it with `Expire`. In memory are the ids and places of
/// all these messages.
pub fn every<H: Host>(alloc: Global, host: &mut H, act: Act) -> Result<u32, SuperError>
    requires { act ≢ acts.Expire }
    ensures ok { IfOk result (λ count. IsTrue H.tells → OnBook (H.view host.old) (λ b.
        (count ≡ moved_count (taken act b))
        × PlaysDeeds b (all_deeds act b) (H.view host.old) (H.view host.new))) }
    ensures err { EachFault result (λ error. IsTrue H.tells → OnBook (H.view host.old) (λ b.
        HaltsDeeds b (all_deeds act b) error (H.view host.old) (H.view host.new))) }
    ensures may { IsTrue H.tells → OnBook (H.view host.old) (λ b.
        may_steps b (steps_in (all_deeds act b)) ≡ true) }
    ensures never_absent { IsErrOf result errors.Absent → ⊥ }
    ensures cause { ToolCause (H.faults host.old) (H.faults host.new) result }
{
    let found = taken(alloc, host, act)?;
    let word = word_of(act);
    let count = move_each(alloc, host, word, found.as_slice(), goal_of(act))?;
    Ok(count)
}
