//! A delivery ends, or a row is put off: its outcomes are settled in order.
ghost use Rattle.std.specs.Prelude.{◌≡◌, ◌==◌, false, filter, IfOk, not, OnErr, OnOk};
ghost use Rattle.std.specs.List.{list_all};
ghost use Rattle.std.specs.Option.{option_map_or};
ghost use Rattle.q_model.specs.Book.{message_of};
ghost use Rattle.q_model.specs.Replies.{fits_state, is_later, may_reply};
ghost use Rattle.q_model.specs.Skips.{may_skip};
ghost use Rattle.q_model.specs.Times.{is_expired};
ghost use Rattle.q_ledger.specs.PutOff.{delays_need, skipped_in, without_row};
ghost use Rattle.q_ledger.specs.Settled.{outcomes_need, replied_in, with_left, with_unsettled, without_flight};
ghost use Rattle.q_ledger.specs.Following.{ChangesIn};
ghost use Rattle.q_ledger.specs.Worlds.{world_of};

use crate::finishing::is_expired;
use crate::ledger::Ledger;
use crate::outcomes::{needs, put_off};
use crate::starting::is_row;
use crate::world::World;
use q_model::{Delivery, Entry, Id, NoMemory, Outcome, Site, SiteState, Unsettled};
use std::alloc::Global;

fn is_later(outcome: &Outcome) -> bool
    ensures { result ≡ is_later outcome.now }
{
    match outcome {
        Outcome::Ok => false,
        Outcome::Later(_) => true,
        Outcome::Never(_) => false,
    }
}

fn are_later(outcomes: &[Outcome]) -> bool
    ensures { result ≡ list_all is_later outcomes.now }
{
    outcomes.iter().all(|outcome| is_later(outcome))
}

fn fits_state(state: SiteState, outcomes: &[Outcome]) -> bool
    ensures { result ≡ fits_state state outcomes.now }
{
    match state {
        SiteState::Up => true,
        SiteState::Down => are_later(outcomes),
    }
}

fn is_other(flight: &Delivery, number: u64) -> bool
    ensures { result ≡ not (flight.now.number == number) }
{
    flight.number != number
}

/// Takes the delivery of this number out of those in flight.
fn land(flights: &mut Vec<Delivery>, number: u64)
    ensures { flights.new.items ≡ filter (λ f. not (f.number == number)) flights.old.items }
{
    flights.retain(|flight| is_other(flight, number));
}

impl Ledger {
    pub(crate) fn may_reply(&self, number: u64, state: SiteState, outcomes: &[Outcome]) -> bool
        ensures { result ≡ may_reply self.now.ledger number state outcomes.now }
    {
        match self.flight(number) {
            Some(flight) => {
                outcomes.len() == flight.row.positions.len() && fits_state(state, outcomes)
            }
            None => false,
        }
    }

    fn is_old(&self, world: &World, id: Id) -> bool
        ensures { result ≡ option_map_or (is_expired (world_of world.now) self.now.ledger.now)
            (message_of self.now.ledger.book id) false }
    {
        match self.book.message(id) {
            Some(message) => is_expired(world, self.clock, message),
            None => false,
        }
    }

    /// What the outcomes of the delivery need.
    fn outcome_needs(
        &self,
        alloc: Global,
        world: &World,
        delivery: &Delivery,
        outcomes: &[Outcome],
    ) -> Result<Vec<Unsettled>, NoMemory>
        ensures { IfOk result (λ needs. needs.items
            ≡ outcomes_need (world_of world.now) self.now.ledger delivery.now outcomes.now) }
    {
        let row = &delivery.row;
        let old = self.is_old(world, row.id);
        needs(alloc, row.id, old, row.positions.as_slice(), outcomes)
    }

    fn add_unsettled(&mut self, found: &[Unsettled]) -> Result<(), NoMemory>
        ensures added { OnOk result (self.new ≡ with_unsettled found.now self.old) }
        ensures lack { OnErr result (self.new ≡ self.old) }
    {
        self.unsettled.extend_from_slice(found)?;
        Ok(())
    }

    /// The delivery of this number is in flight no more.
    fn land(&mut self, number: u64)
        ensures { self.new ≡ without_flight number self.old }
    {
        land(&mut self.flights, number);
    }

    /// A row has left the site.
    fn leave(&mut self, site: &Site)
        ensures { self.new ≡ with_left site.now self.old }
    {
        self.left = Some(*site);
    }

    /// The delivery is over, and its outcomes are settled.
    fn settle_reply(
        &mut self,
        alloc: Global,
        world: &World,
        number: u64,
        state: SiteState,
        outcomes: &[Outcome],
    ) -> Result<(), NoMemory>
        ensures replied { OnOk result (self.new
            ≡ replied_in (world_of world.now) self.old number state outcomes.now) }
        ensures lack { OnErr result (self.new ≡ self.old) }
    {
        let Some(delivery) = self.flight(number) else {
            return Ok(());
        };
        let id = delivery.row.id;
        let site = delivery.row.site;
        let found = self.outcome_needs(alloc, world, delivery, outcomes)?;
        self.add_unsettled(&found)?;
        self.hear_state(world, &site, state);
        self.land(number);
        self.count_rows(id, found.len(), 1);
        self.leave(&site);
        Ok(())
    }

    /// The same of an entry that is allowed.
    pub(crate) fn reply(
        &mut self,
        alloc: Global,
        world: &World,
        number: u64,
        state: SiteState,
        outcomes: &[Outcome],
    ) -> Result<(), NoMemory>
        ensures changed { OnOk result (ChangesIn (world_of world.now) self.old
            (Entry.Reply number state outcomes.now) self.new) }
        ensures lack { OnErr result (self.new ≡ self.old) }
    {
        self.total_rows(outcomes.len());
        self.settle_reply(alloc, world, number, state, outcomes)?;
        Ok(())
    }

    pub(crate) fn may_skip(&self, id: Id, site: &Site, positions: &[u32]) -> bool
        ensures { result ≡ may_skip self.now.ledger id site.now positions.now }
    {
        self.waits(id, site, positions) && self.is_dead_site(site)
    }

    /// What the recipients of a row need that is put off.
    fn delay_needs(
        &self,
        alloc: Global,
        world: &World,
        id: Id,
        positions: &[u32],
    ) -> Result<Vec<Unsettled>, NoMemory>
        ensures { IfOk result (λ needs. needs.items
            ≡ delays_need (world_of world.now) self.now.ledger id positions.now) }
    {
        put_off(alloc, id, self.is_old(world, id), positions)
    }

    /// The row waits no more.
    fn unqueue(&mut self, id: Id, site: &Site, positions: &[u32])
        ensures { self.new ≡ without_row id site.now positions.now self.old }
    {
        let _ = self.waiting.take(id, site, positions);
    }

    /// The row waits no more, and its recipients are put off without a code.
    fn settle_skip(
        &mut self,
        alloc: Global,
        world: &World,
        id: Id,
        site: &Site,
        positions: &[u32],
    ) -> Result<(), NoMemory>
        ensures skipped { OnOk result (self.new
            ≡ skipped_in (world_of world.now) self.old id site.now positions.now) }
        ensures lack { OnErr result (self.new ≡ self.old) }
    {
        let found = self.delay_needs(alloc, world, id, positions)?;
        self.add_unsettled(&found)?;
        self.unqueue(id, site, positions);
        self.count_rows(id, found.len(), 1);
        self.leave(site);
        Ok(())
    }

    /// The same of an entry that is allowed, with lines and served rows tidied.
    pub(crate) fn skip(
        &mut self,
        alloc: Global,
        world: &World,
        id: Id,
        site: &Site,
        positions: &[u32],
    ) -> Result<(), NoMemory>
        ensures changed { OnOk result (ChangesIn (world_of world.now) self.old
            (Entry.Skip id site.now positions.now) self.new) }
        ensures lack { OnErr result (self.new ≡ self.old) }
    {
        self.total_rows(positions.len());
        self.settle_skip(alloc, world, id, site, positions)?;
        self.tidy_lines(id);
        self.tidy_served(id, site);
        Ok(())
    }
}
