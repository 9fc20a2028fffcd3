//! The sites that are suspended.
ghost use Rattle.std.specs.Prelude.{◌≡◌, ◌<◌, ◌≤◌, ◌-◌, ◌++◌, ◌^◌, [], ◌∷◌, IfOk, false, filter, find, length, not};
ghost use Rattle.std.specs.List.{list_any};
ghost use Rattle.q_suspended.specs.Suspensions.{AreApart, is_at, is_due};

use crate::suspension::Suspension;
use q_keyed::Keyed;
use q_model::{Moment, Site};
use q_register::{Member, Register};
use std::alloc::{AllocError, Global};
use std::marker::Model;

/// The sites that are suspended, in the order in which they came to be so. A contract sees them as
/// a list.
#[derive(Debug, Drop)]
pub struct Suspended {
    sites: Keyed<Suspension>,
    /// Their numbers, by the moment at which each is resumed.
    times: Register<u32, ()>,
}

impl Model for Suspended {
    ghost use Rattle.std.specs.Prelude.{◌≡◌};
    ghost use Rattle.q_keyed.specs.Numbered.{values_of};
    ghost use Rattle.q_suspended.specs.Sound.{numbers_of};
    ghost use Rattle.q_suspended.specs.Suspensions.{Suspensions};

    ghost Value = { Suspensions };

    ghost view = { λ a. record { items = values_of a.sites.items; room = a.sites.room } };

    ghost invariant = { λ a. a.times ≡ numbers_of a.sites };
}

impl Suspended {
    /// No site, and room for so many.
    pub fn new(alloc: Global, room: u32) -> Result<Suspended, AllocError>
        requires some { 1 ≤ room }
        requires few { room < 2 ^ 30 }
        ensures { IfOk result (λ made. made ≡ record { items = []; room = room }) }
    {
        let sites = Keyed::new(alloc, room)?;
        let times = Register::new(alloc, room)?;
        Ok(Suspended { sites, times })
    }

    /// No two are one site, and there are no more than have room, whatever was called: this does
    /// nothing, and is there for callers whose proofs want to know it.
    pub fn stand_apart(&self)
        ensures apart { AreApart self.now.items }
        ensures within { length self.now.items ≤ self.now.room }
    {
        self.sites.stand_apart();
    }

    /// How many sites more have room.
    pub fn spare(&self) -> u32
        ensures { result ≡ self.now.room - length self.now.items }
    {
        self.sites.spare()
    }

    /// Whether the site is suspended.
    pub fn has(&self, site: &Site) -> bool
        ensures { result ≡ list_any (is_at site.now) self.now.items }
    {
        self.sites.find(site).is_some()
    }

    /// The first of the sites whose moment has come.
    pub fn first_due(&self, moment: Moment) -> Option<Suspension>
        requires { moment < 2 ^ 64 - 1 }
        ensures { result ≡ find (is_due moment) self.now.items }
    {
        self.sites.stand_apart();
        let member = self.times.first_within(moment)?;
        self.sites.get(member.key).copied()
    }

    /// Adds a site behind all others.
    pub fn push(&mut self, suspension: Suspension)
        requires absent { list_any (is_at suspension.site) self.old.items ≡ false }
        requires room { length self.old.items < self.old.room }
        ensures { self.new ≡ record self.old { items = self.old.items ++ suspension ∷ [] } }
    {
        let until = suspension.until;
        let number = self.sites.push(suspension);
        self.times.push(Member {
            key: number,
            value: (),
            rank: until,
        });
    }

    /// Takes the site out.
    pub fn remove(&mut self, site: &Site)
        ensures { self.new ≡ record self.old
            { items = filter (λ s. not (is_at site.now s)) self.old.items } }
    {
        if let Some(number) = self.sites.find(site) {
            let _suspension = self.sites.remove(number);
            let _time = self.times.remove(&number);
        }
    }
}
