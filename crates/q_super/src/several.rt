//! An act with the messages of several ids.
//!
//! An id that finds nothing to do is passed over, so that one that is wrong or comes too late doesn't keep
//! the others from their turn. It is an error to call this while another process runs a life on the spool.
ghost use Rattle.std.specs.Prelude.{◌≡◌, ◌||◌, false, IfOk, IsErrOf, IsTrue, not, OnOk, true};
ghost use Rattle.q_model.specs.Book.{Book};
ghost use Rattle.q_model.specs.Lists.{has_none};
ghost use Rattle.q_model.specs.ToolSteps.{may_steps};
ghost use Rattle.q_super.specs.Deeds.{deeds_of, steps_in};
ghost use Rattle.q_super.specs.EachDeeds.{each_deeds, lacks_any};
ghost use Rattle.q_super.specs.FoundPlaces.{AreSourcePlaces, Finds};
ghost use Rattle.q_super.specs.Plays.{after_deeds, HaltsDeeds, OnBook, PlaysDeeds};
ghost use Rattle.q_super.specs.Refusals.{EachError, EachFault, HostCause, ToolCause};
ghost use Rattle.q_super.specs.declared.error.SuperError.TheVariants as errors;

use crate::acting::act_on;
use crate::acts::Act;
use crate::error::SuperError;
use crate::indexing::{Places, taken_places};
use crate::standing::Standing;
use q_host::{Host, HostError};
use q_model::{Id, Sequence};
use std::alloc::Global;

/// The ids of messages, in the order in which they have their turn.
pub type Ids = Sequence<Id>;

/// Whether one was lacking before, or this one is, with which nothing was done.
fn is_lacking(before: bool, done: bool) -> bool
    ensures { result ≡ (before || not done) }
{
    before || !done
}

/// Does the act with the message of an id, where it stands in the map, from which it is taken: no act takes
/// a message again from where it left it.
fn act_found<H: Host>(
    alloc: Global,
    host: &mut H,
    act: Act,
    places: &mut Places,
    id: Id,
) -> Result<bool, HostError>
    requires { AreSourcePlaces act places.old }
    ensures sources { AreSourcePlaces act places.new }
    ensures finds { (b : Book) → Finds act b places.old
        → Finds act (after_deeds b (deeds_of act id b)) places.new }
    ensures ok { IfOk result (λ done. IsTrue H.tells → OnBook (H.view host.old) (λ b.
        Finds act b places.old → (done ≡ not (has_none (deeds_of act id b)))
        × PlaysDeeds b (deeds_of act id b) (H.view host.old) (H.view host.new))) }
    ensures err { EachError result (λ error. IsTrue H.tells → OnBook (H.view host.old) (λ b.
        Finds act b places.old
        → HaltsDeeds b (deeds_of act id b) error (H.view host.old) (H.view host.new))) }
    ensures cause { HostCause (H.faults host.old) (H.faults host.new) result }
{
    let Some(place) = places.remove(&id) else {
        return Ok(false);
    };
    act_on(alloc, host, act, Standing { id, place })
}

/// Does the act with the message of each of these ids, in order. `true` where with one of them there was
/// nothing to do.
fn act_each<H: Host>(alloc: Global, host: &mut H, act: Act, ids: &[Id]) -> Result<bool, HostError>
    ensures ok { IfOk result (λ lacks. IsTrue H.tells → OnBook (H.view host.old) (λ b.
        (lacks ≡ lacks_any act ids.now b)
        × PlaysDeeds b (each_deeds act ids.now b) (H.view host.old) (H.view host.new))) }
    ensures err { EachError result (λ error. IsTrue H.tells → OnBook (H.view host.old) (λ b.
        HaltsDeeds b (each_deeds act ids.now b) error (H.view host.old) (H.view host.new))) }
    ensures cause { HostCause (H.faults host.old) (H.faults host.new) result }
{
    let mut places = taken_places(alloc, host, act)?;
    let mut lacks = false;
    for id in ids {
        let done = act_found(alloc, host, act, &mut places, *id)?;
        lacks = is_lacking(lacks, done);
    }
    Ok(lacks)
}

/// Does the act with the message of each of these ids, in order, and tells the line `ACT ID` of each behind
/// what was done with it, as `act` does.
///
/// With an id for which `act` would answer `Absent` when its turn comes nothing is done, and the others
/// still have their turn; `Absent` then comes once all have had it. No act takes a message from where it
/// left it, so an id that comes twice is absent the second time. In memory are the ids and places of all
/// messages that the act takes.
pub fn each<H: Host>(alloc: Global, host: &mut H, act: Act, ids: &Ids) -> Result<(), SuperError>
    ensures ok { OnOk result (IsTrue H.tells → OnBook (H.view host.old) (λ b.
        (lacks_any act ids.now b ≡ false)
        × PlaysDeeds b (each_deeds act ids.now b) (H.view host.old) (H.view host.new))) }
    ensures err { EachFault result (λ error. IsTrue H.tells → OnBook (H.view host.old) (λ b.
        HaltsDeeds b (each_deeds act ids.now b) error (H.view host.old) (H.view host.new))) }
    // All that there was to do was done.
    ensures absent { IsErrOf result errors.Absent → IsTrue H.tells → OnBook (H.view host.old) (λ b.
        (lacks_any act ids.now b ≡ true)
        × PlaysDeeds b (each_deeds act ids.now b) (H.view host.old) (H.view host.new)) }
    ensures may { IsTrue H.tells → OnBook (H.view host.old) (λ b.
        may_steps b (steps_in (each_deeds act ids.now b)) ≡ true) }
    ensures cause { ToolCause (H.faults host.old) (H.faults host.new) result }
{
    if act_each(alloc, host, act, ids.as_slice())? {
        return Err(SuperError::Absent);
    }
    Ok(())
}
