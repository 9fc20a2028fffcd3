//! The candidates.
ghost use Rattle.std.specs.Prelude.{◌≡◌, ◌≤◌, ◌<◌, ◌-◌, ◌^◌, [], filter, find, IfOk, length, None, not, true};
ghost use Rattle.std.specs.List.{AllByRecursion};
ghost use Rattle.std.specs.Option.{option_copied};
ghost use Rattle.q_candidates.specs.Candidates.{AreApart, is_of, put_in};
ghost use Rattle.q_candidates.specs.Suspending.{AreIn, AreInAnew, AreInWith};

use crate::arrivals::arrival_ticket;
use crate::candidate::Candidate;
use crate::index::Index;
use q_keyed::Keyed;
use q_model::{Id, Site};
use q_rounds::PeerKey;
use q_sorted::Sorted;
use std::alloc::{AllocError, Global};
use std::marker::Model;

/// Candidates in the order in which they came. A contract sees them as a list.
#[derive(Debug, Drop)]
pub struct Candidates {
    pub(crate) candidates: Keyed<Candidate>,
    pub(crate) index: Index,
    /// The numbers of candidates, by transport and then by arrival.
    pub(crate) arrivals: Sorted,
}

impl Model for Candidates {
    ghost use Rattle.q_keyed.specs.Numbered.{values_of};
    ghost use Rattle.q_candidates.specs.Candidates.{Listed};
    ghost use Rattle.q_candidates.specs.Sound.{IsSound};
    ghost use Rattle.q_candidates.specs.Suspending.{sites_of};

    ghost Value = { Listed };

    ghost view = { λ a. record {
      items = values_of a.candidates.items;
      suspended = sites_of a.index.lanes.items;
      room = a.candidates.room;
    } };

    ghost invariant = { λ a. IsSound a.candidates a.index a.arrivals };
}

impl Candidates {
    /// No candidate, and room for so many. An error says that memory is wanting.
    pub fn new(alloc: Global, room: u32) -> Result<Candidates, AllocError>
        requires some { 1 ≤ room }
        requires few { room < 2 ^ 30 }
        ensures { IfOk result (λ made. made ≡ record
            { items = []; suspended = []; room = room }) }
    {
        let candidates = Keyed::new(alloc, room)?;
        let index = Index::new(alloc, room)?;
        let arrivals = Sorted::new(alloc, room)?;
        Ok(Candidates {
            candidates,
            index,
            arrivals,
        })
    }

    /// No two candidates are of one message and site, each needs a delivery, and there are no more
    /// than have room, whatever was called: this does nothing, and is there for callers whose
    /// proofs want to know it.
    pub fn stand_apart(&self)
        ensures apart { AreApart self.now.items }
        ensures needs { AllByRecursion (λ c. 1 ≤ c.need) self.now.items }
        ensures within { length self.now.items ≤ self.now.room }
        ensures few { self.now.room < 2 ^ 30 }
    {
        self.candidates.stand_apart();
    }

    /// How many candidates there are.
    pub fn len(&self) -> u32
        ensures { result ≡ length self.now.items }
    {
        self.candidates.stand_apart();
        self.candidates.len() as u32
    }

    /// How many candidates more have room.
    pub fn spare(&self) -> u32
        ensures { result ≡ self.now.room - length self.now.items }
    {
        self.candidates.spare()
    }

    /// The candidate of the message at the site.
    pub fn find(&self, id: Id, site: &Site) -> Option<&Candidate>
        ensures { option_copied result ≡ find (is_of id site.now) self.now.items }
    {
        let number = self.candidates.find(&PeerKey { id, site: *site })?;
        self.candidates.get(number)
    }

    /// Puts a candidate in the place of that of the same message and site, or behind all others. Its
    /// site is suspended or isn't.
    pub fn put(&mut self, candidate: Candidate, suspended: bool)
        requires some { 1 ≤ candidate.need }
        requires room { find (is_of candidate.id candidate.site) self.old.items ≡ None
            → length self.old.items < self.old.room }
        ensures put { self.new ≡ record self.old
            { items = put_in candidate self.old.items; suspended = self.new.suspended } }
        ensures suspended { AreInWith candidate.site suspended self.old.suspended
            self.new.suspended }
    {
        self.arrivals.stand_sorted();
        let Some(number) = self.candidates.find(&candidate.key()) else {
            let number = self.candidates.push(candidate);
            self.index.enter(number, &candidate, suspended);
            self.arrivals.insert(arrival_ticket(number, &candidate));
            self.index.lanes.stand_apart();
            return;
        };
        let Some(was) = self.candidates.get(number).copied() else {
            return;
        };
        self.index.leave(number, &was);
        self.arrivals.remove(&arrival_ticket(number, &was));
        self.arrivals.stand_sorted();
        self.candidates.put(number, candidate);
        self.index.enter(number, &candidate, suspended);
        self.arrivals.insert(arrival_ticket(number, &candidate));
        self.index.lanes.stand_apart();
    }

    /// Takes the candidate of the message at the site out, and does nothing where there is none.
    pub fn remove(&mut self, id: Id, site: &Site)
        ensures left { self.new ≡ record self.old {
          items = filter (λ c. not (is_of id site.now c)) self.old.items;
          suspended = self.new.suspended;
        } }
        ensures suspended { AreIn self.old.suspended self.new.suspended }
    {
        let Some(number) = self.candidates.find(&PeerKey { id, site: *site }) else {
            return;
        };
        let Some(candidate) = self.candidates.get(number).copied() else {
            return;
        };
        self.index.leave(number, &candidate);
        self.arrivals.remove(&arrival_ticket(number, &candidate));
        let _candidate = self.candidates.remove(number);
        self.index.lanes.stand_apart();
    }

    /// The site is suspended: `best` passes its candidates without a step. Or it isn't any more.
    pub fn set_suspended(&mut self, site: &Site, suspended: bool)
        ensures rest { self.new ≡ record self.old { suspended = self.new.suspended } }
        ensures suspended { AreInAnew site.now suspended self.old.suspended self.new.suspended }
    {
        self.index.set_suspended(site, suspended);
        self.index.lanes.stand_apart();
    }
}
