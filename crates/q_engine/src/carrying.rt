//! How each decision is carried out: the disk first, then its line.
ghost use Rattle.q_engine.specs.Marks.{mark_of};
ghost use Rattle.q_engine.specs.Steps.{EachError};
ghost use Rattle.q_engine.specs.Stops.{EachStop, FindsReadable, StopCause};
ghost use Rattle.q_engine.specs.KeptPlaces.{IsForgotten, left_by};
ghost use Rattle.q_engine.specs.TakenOver.{IsTakenOver};
ghost use Rattle.q_places.specs.Kept.{IsFewer};
ghost use Rattle.q_host.specs.View.{Told};
ghost use Rattle.std.specs.Prelude.{◌≡◌, IsTrue, None, OnOk, true};
ghost use Rattle.q_core.specs.Deciding.{is_answered};
ghost use Rattle.q_engine.specs.Steps.{CarriesOut, GivesDecisionUp, HasNext};
ghost use Rattle.q_entries.specs.Causes.{HostCause};

use crate::engine::Engine;
use crate::stop::Stop;
use q_core::Decision;
use q_host::{Host, HostError};
use q_model::Id;
use std::alloc::Global;

/// The message that leaves memory by the decision.
fn left_by(decision: &Decision) -> Option<Id>
    ensures { result ≡ left_by decision.now }
{
    match *decision {
        Decision::Defer { id, .. } => Some(id),
        Decision::Remove { id } => Some(id),
        Decision::Corrupt { id, .. } => Some(id),
        _ => None,
    }
}

/// A recipient that is to be marked.
#[derive(Clone, Copy)]
struct Marked {
    id: Id,
    position: u32,
}

/// The recipient that the decision marks.
fn mark_of(decision: &Decision) -> Option<Marked>
    ensures { result ≡ mark_of decision.now }
{
    match *decision {
        Decision::Mark { id, position } => Some(Marked { id, position }),
        _ => None,
    }
}

impl Engine {
    /// What is kept of a message that leaves memory by the decision is forgotten.
    fn forget_left(&mut self, decision: &Decision)
        ensures fewer { IsFewer self.old.places self.new.places }
        ensures gone { IsForgotten decision.now self.new }
        ensures rest { self.new ≡ record self.old { places = self.new.places } }
    {
        let Some(id) = left_by(decision) else {
            return;
        };
        self.places.forget(id);
    }

    /// Carries a decision out that marks no recipient, and of which nothing is kept that it makes
    /// untrue.
    fn dispatch<H: Host>(
        &mut self,
        alloc: Global,
        host: &mut H,
        decision: &Decision,
    ) -> Result<(), HostError>
        requires decided { IsTrue H.tells → HasNext decision.now self.old (H.view host.old) }
        requires taken { IsTakenOver decision.now self.old.core.value }
        requires forgotten { IsForgotten decision.now self.old }
        requires no_mark { mark_of decision.now ≡ None }
        ensures ok { OnOk result (Told H.tells H.view host.old host.new
            (CarriesOut decision.now self.old self.new)) }
        ensures answered { OnOk result (is_answered self.new.core.value.question ≡ true) }
        ensures timed { OnOk result (self.new.core.value.timed ≡ self.old.core.value.timed) }
        ensures err { EachError result (λ error. Told H.tells H.view host.old host.new
            (GivesDecisionUp decision.now self.old error)) }
        ensures cause { HostCause (H.faults host.old) (H.faults host.new) result }
    {
        match *decision {
            Decision::Log { id, failure } => self.log(alloc, host, id, failure),
            Decision::Sync { id } => self.sync(alloc, host, id),
            Decision::Skip { id, site, entry } => self.skip(alloc, host, id, site, entry),
            Decision::Defer { id, due } => self.defer(alloc, host, id, due),
            Decision::Back { id } => self.back(alloc, host, id),
            Decision::Bounce { id } => self.bounce(alloc, host, id),
            Decision::Remove { id } => self.remove(alloc, host, id),
            Decision::Corrupt { id, place } => self.corrupt(alloc, host, id, place),
            Decision::Admit { id, place } => self.admit(alloc, host, id, place),
            Decision::Preempt {
                child,
                parent,
                transport,
                need,
            } => self.preempt(alloc, host, child, parent, transport, need),
            Decision::Start { number, id, site } => self.start(alloc, host, number, id, site),
            Decision::Read { id, from, max } => self.load(alloc, host, id, from, max),
            Decision::Mark { .. }
            | Decision::LookActive
            | Decision::LookIncoming
            | Decision::LookDeferred { .. } => unreachable!(),
        }
    }

    /// Carries a decision out that the core has taken over, or the read that it asks for.
    pub(crate) fn carry_out<H: Host>(
        &mut self,
        alloc: Global,
        host: &mut H,
        decision: &Decision,
    ) -> Result<(), Stop>
        requires decided { IsTrue H.tells → HasNext decision.now self.old (H.view host.old) }
        requires taken { IsTakenOver decision.now self.old.core.value }
        ensures ok { OnOk result (Told H.tells H.view host.old host.new
            (CarriesOut decision.now self.old self.new)) }
        ensures answered { OnOk result (is_answered self.new.core.value.question ≡ true) }
        ensures timed { OnOk result (self.new.core.value.timed ≡ self.old.core.value.timed) }
        ensures err { EachStop result (λ error. Told H.tells H.view host.old host.new
            (GivesDecisionUp decision.now self.old error)) }
        ensures readable { FindsReadable H.tells result }
        ensures cause { StopCause (H.faults host.old) (H.faults host.new) result }
    {
        self.forget_left(decision);
        let Some(mark) = mark_of(decision) else {
            self.dispatch(alloc, host, decision)?;
            return Ok(());
        };
        self.mark(alloc, host, mark.id, mark.position)
    }
}
