//! What of a load is left on its host.
ghost use Rattle.std.specs.Prelude.{◌≡◌, ◌<◌, IfOk, IfSome, length, List, not};
ghost use Rattle.q_host.specs.Calls.{Stays};
ghost use Rattle.q_host.specs.declared.error.HostError.TheVariants as faults;
ghost use Rattle.q_mem_host.specs.Left.{view_of};
ghost use Rattle.q_model.specs.Book.{Book};
ghost use Rattle.q_model.specs.FilesStand.{Stands};
ghost use Rattle.q_model.specs.Lists.{has_none};
ghost use Rattle.q_model.specs.Message.{Message};
ghost use Rattle.q_model.specs.SpoolFiles.{Files};
ghost use Rattle.q_walk.specs.Counted.{counted};
ghost use Rattle.q_walk.specs.Listed.{all_queues, listed};
ghost use Rattle.q_walk.specs.Walks.{GivesNext, IsAhead, walk_left};

use crate::unfailing_host::UnfailingHost;
use q_host::HostError;
use q_model::{NoMemory, Queues};
use q_walk::{Found, Walk};
use std::alloc::Global;

/// A walk over the messages of all queues.
fn all_messages(alloc: Global) -> Result<Walk, NoMemory>
    ensures { IfOk result (λ walk. (f : Files) → (b : Book) → Stands f b
        → IsAhead f b walk (listed all_queues b)) }
{
    Walk::new(
        alloc,
        Queues {
            incoming: true,
            active: true,
            deferred: true,
            hold: true,
        },
    )
}

/// The host's refusal, which is want of memory, since none of its calls fails otherwise.
fn want_of_memory(error: HostError) -> NoMemory
    requires { error ≡ faults.NoMemory }
{
    match error {
        HostError::NoMemory => NoMemory,
        HostError::Disk | HostError::Tell => unreachable!(),
    }
}

/// The next message of a walk.
fn next_found(walk: &mut Walk, host: &mut UnfailingHost) -> Result<Option<Found>, NoMemory>
    ensures next { IfOk result (λ o. (b : Book) → (ms : List Message)
        → Stands (view_of host.old).files b → IsAhead (view_of host.old).files b walk.old ms
        → GivesNext (view_of host.old).files b walk.new ms o) }
    ensures fewer { IfOk result (λ o. IfSome o (λ _. walk_left walk.new < walk_left walk.old)) }
    ensures stays { Stays (view_of host.old) (view_of host.new) }
{
    match walk.next(host) {
        Ok(found) => Ok(found),
        Err(error) => Err(want_of_memory(error)),
    }
}

/// Whether a message is left.
pub(crate) fn is_some_left(alloc: Global, host: &mut UnfailingHost) -> Result<bool, NoMemory>
    ensures exact { IfOk result (λ some. (b : Book) → Stands (view_of host.old).files b
        → some ≡ not (has_none b.messages)) }
    ensures stays { Stays (view_of host.old) (view_of host.new) }
{
    let mut walk = all_messages(alloc)?;
    match next_found(&mut walk, host)? {
        Some(_) => Ok(true),
        None => Ok(false),
    }
}

/// How many messages the walk gives.
fn count_messages(walk: &mut Walk, host: &mut UnfailingHost) -> Result<u128, NoMemory>
    ensures exact { IfOk result (λ count. (b : Book) → (ms : List Message)
        → Stands (view_of host.old).files b → IsAhead (view_of host.old).files b walk.old ms
        → count ≡ counted (length ms)) }
    ensures stays { Stays (view_of host.old) (view_of host.new) }
{
    let mut count: u128 = 0;
    loop {
        let Some(_) = next_found(walk, host)? else {
            return Ok(count);
        };
        count = count.saturating_add(1);
    }
}

/// How many messages are left.
pub(crate) fn count_left(alloc: Global, host: &mut UnfailingHost) -> Result<u128, NoMemory>
    ensures exact { IfOk result (λ count. (b : Book) → Stands (view_of host.old).files b
        → count ≡ length b.messages) }
    ensures stays { Stays (view_of host.old) (view_of host.new) }
{
    let mut walk = all_messages(alloc)?;
    count_messages(&mut walk, host)
}
