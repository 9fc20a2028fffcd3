//! What a drain promises: messages are delivered by SMTP (RFC 5321), sweep by sweep, until no
//! delivery is in flight.
//!
//! The definitions stand in `specs`. `Drains` is the promise as a whole, over the `Story` of a call:
//! what it told, the moments that its clock gave, and what was done with its hops. `Cases` says which
//! deliveries came to their replies, and `Causes` what is known of each of them. `Driving` holds
//! between any two calls of the agent, and the lemmas in `proofs` carry it from one to the next.
//! `Standing` joins it with the engine, the clock and the hops.
//!
//! `drain` makes the sweeps. It is an error to call it with an engine that has heard anything since
//! its life began, and on a host that tells its files with an engine that doesn't stand for them.
//!
//! The laws below are over ledgers alone. Each is the contract of a function with nothing to do; no
//! call of one is an error.
#![tactic(auto)]

mod driver;
mod fault;
mod hearing;
mod opening;
mod poll;
mod reply;
mod sweep;

ghost use Rattle.std.specs.Prelude.{◌≤◌, List, ℕ};
ghost use Rattle.q_drain.specs.Laws.{AddsFlights, OfLedgers, StaysOwnRun};
ghost use Rattle.q_model.specs.declared.entry.Entry.{Entry};
ghost use Rattle.q_model.specs.declared.event.Event.TheVariants as events;
ghost use Rattle.q_model.specs.declared.outcome.Outcome.{Outcome};
ghost use Rattle.q_model.specs.declared.outcome.SiteState.{SiteState};
ghost use Rattle.q_model.specs.Step.{after_all};

pub use driver::{Drained, drain};

/// A turn names just its own event, and so entries that are the run of the events that they name
/// stay so with the turn of a reply, and with that of a moment that isn't past.
pub fn names_its_events()
    ensures reply { OfLedgers (λ w l. (told : List Entry) → (number : ℕ) → (site : SiteState)
        → (outcomes : List Outcome)
        → StaysOwnRun w l told (events.Reply number site outcomes)) }
    ensures moment { OfLedgers (λ w l. (told : List Entry) → (t : ℕ)
        → (after_all w l told).now ≤ t → StaysOwnRun w l told (events.At t)) }
{}

/// Decisions add deliveries in flight, each under the next number, and end none.
pub fn begins_deliveries()
    ensures { OfLedgers (λ w l. (t : ℕ) → AddsFlights w l t) }
{}
