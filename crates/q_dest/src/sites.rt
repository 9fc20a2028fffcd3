//! The sites.
ghost use Rattle.std.specs.Prelude.{◌≡◌, ◌<◌, ◌≤◌, ◌-◌, ◌^◌, [], IfOk, false, filter, find, length, option_map};
ghost use Rattle.std.specs.Option.{option_map_or};
ghost use Rattle.q_dest.specs.Dests.{AreApart, AreBounded, AreKept, behind_dests, busy_at, first_dest, has_space, is_at, is_dead, is_dead_waiting, is_remembered, waiting_at};

use crate::counting::Counts;
use crate::dest::Dest;
use crate::site_record::WideSiteRecord;
use crate::table::Table;
use q_model::Site;
use std::alloc::{AllocError, Global};
use std::marker::Model;

/// The sites. A contract sees them as a list.
#[derive(Debug, Drop)]
pub struct Sites {
    pub(crate) table: Table,
    pub(crate) counts: Counts,
}

impl Model for Sites {
    ghost use Rattle.q_dest.specs.Counting.{AreCounted};
    ghost use Rattle.q_dest.specs.Dests.{AreKept, Dests};

    ghost Value = { Dests };

    ghost view = { λ a. a.table };

    ghost invariant = { λ a. AreCounted a.counts a.table.items × AreKept a.table.items };
}

impl Sites {
    /// No site, and room for so many, each under a number of its own, and for the numbers
    /// in two registers (`q_register::Register`).
    pub fn new(alloc: Global, room: u32) -> Result<Sites, AllocError>
        requires some { 1 ≤ room }
        requires few { room < 2 ^ 30 }
        ensures { IfOk result (λ made. made ≡ record { items = []; room = room }) }
    {
        let table = Table::new(alloc, room)?;
        let counts = Counts {
            remembered: 0,
            dead_waiting: 0,
        };
        Ok(Sites { table, counts })
    }

    /// No two are one site, none is alive and unused, the numbers of each record are bounded, and
    /// there are no more than have room, whatever was called: this does nothing, and is there for
    /// callers whose proofs want to know it.
    pub fn stand_apart(&self)
        ensures apart { AreApart self.now.items }
        ensures kept { AreKept self.now.items }
        ensures bounded { AreBounded self.now.items }
        ensures within { length self.now.items ≤ self.now.room }
        ensures few { self.now.room < 2 ^ 30 }
    {
        self.table.stand_apart();
    }

    /// How many more have room.
    pub fn spare(&self) -> u32
        ensures { result ≡ self.now.room - length self.now.items }
    {
        self.table.spare()
    }

    /// What is known of a site.
    pub fn get(&self, site: &Site) -> Option<WideSiteRecord>
        ensures { result ≡ option_map (λ d. d.known) (find (is_at site.now) self.now.items) }
    {
        match self.table.get(site) {
            Some(dest) => Some(dest.known),
            None => None,
        }
    }

    /// How many rows wait for the site.
    pub fn waiting(&self, site: &Site) -> u32
        ensures { result ≡ waiting_at site.now self.now.items }
    {
        match self.table.get(site) {
            Some(dest) => dest.waiting,
            None => 0,
        }
    }

    /// How many deliveries to it are in flight.
    pub fn busy(&self, site: &Site) -> u32
        ensures { result ≡ busy_at site.now self.now.items }
    {
        match self.table.get(site) {
            Some(dest) => dest.busy,
            None => 0,
        }
    }

    /// Whether the site is dead.
    pub fn is_dead(&self, site: &Site) -> bool
        ensures { result ≡ option_map_or is_dead (find (is_at site.now) self.now.items) false }
    {
        match self.table.get(site) {
            Some(dest) => dest.is_dead(),
            None => false,
        }
    }

    /// Whether the site is known and alive, and more deliveries to it may be in flight.
    pub fn has_space(&self, site: &Site) -> bool
        ensures { result ≡ option_map_or has_space (find (is_at site.now) self.now.items) false }
    {
        match self.table.get(site) {
            Some(dest) => dest.has_space(),
            None => false,
        }
    }

    /// What is known of the first site.
    pub fn first(&self) -> Option<WideSiteRecord>
        ensures { result ≡ option_map (λ d. d.known) (first_dest self.now.items) }
    {
        match self.table.first() {
            Some(dest) => Some(dest.known),
            None => None,
        }
    }

    /// What is known of the site right behind this one.
    pub fn behind(&self, site: &Site) -> Option<WideSiteRecord>
        ensures { result ≡ option_map (λ d. d.known)
            (first_dest (behind_dests site.now self.now.items)) }
    {
        match self.table.behind(site) {
            Some(dest) => Some(dest.known),
            None => None,
        }
    }

    /// How many sites are dead and unused.
    pub fn remembered(&self) -> u32
        ensures { result ≡ length (filter is_remembered self.now.items) }
    {
        self.counts.remembered
    }

    /// How many sites are dead though rows wait for them.
    pub fn dead_waiting(&self) -> u32
        ensures { result ≡ length (filter is_dead_waiting self.now.items) }
    {
        self.counts.dead_waiting
    }
}
