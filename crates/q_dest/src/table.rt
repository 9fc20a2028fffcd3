//! The sites in their order, and their numbers in two registers.
ghost use Rattle.std.specs.Prelude.{◌≡◌, ◌<◌, ◌≤◌, ◌-◌, ◌++◌, ◌^◌, [], ◌∷◌, IfOk, filter, find, length, map, None, not, Some};
ghost use Rattle.q_dest.specs.Dests.{AreApart, AreBounded, behind_dests, changed_at, first_dest, is_at, is_dead, is_due_at, is_remembered};
ghost use Rattle.q_dest.specs.Sound.{ranked_at};

use crate::dest::Dest;
use q_keyed::Keyed;
use q_model::{Moment, Site};
use q_register::{Member, Register};
use std::alloc::{AllocError, Global};
use std::marker::Model;

/// The sites. A contract sees them as a list.
#[derive(Debug, Drop)]
pub(crate) struct Table {
    pub(crate) dests: Keyed<Dest>,
    /// Their numbers, by the moment until which each is dead or rests.
    pub(crate) times: Register<u32, ()>,
    /// Their numbers, by whether each is dead.
    pub(crate) dead: Register<u32, ()>,
    /// Their numbers, by whether each is remembered.
    pub(crate) remembered: Register<u32, ()>,
}

impl Model for Table {
    ghost use Rattle.q_dest.specs.Dests.{Dests};
    ghost use Rattle.q_dest.specs.Sound.{IsSound};
    ghost use Rattle.q_keyed.specs.Numbered.{values_of};

    ghost Value = { Dests };

    ghost view = { λ a. record { items = values_of a.dests.items; room = a.dests.room } };

    ghost invariant = { λ a. IsSound a.dests a.times a.dead a.remembered };
}

/// The member of a number.
fn member(number: u32, rank: u64) -> Member<u32, ()>
    ensures { result ≡ record { key = number; value = tt; rank = rank } }
{
    Member {
        key: number,
        value: (),
        rank,
    }
}

/// Notes the rank of a number, where it is another than before.
fn rank_at(numbers: &mut Register<u32, ()>, number: u32, before: u64, after: u64)
    requires { ranked_at number before numbers.old ≡ numbers.old }
    ensures { numbers.new ≡ ranked_at number after numbers.old }
{
    if before != after {
        numbers.set(&number, (), after);
    }
}

impl Table {
    pub(crate) fn new(alloc: Global, room: u32) -> Result<Table, AllocError>
        requires some { 1 ≤ room }
        requires few { room < 2 ^ 30 }
        ensures { IfOk result (λ made. made ≡ record { items = []; room = room }) }
    {
        let dests = Keyed::new(alloc, room)?;
        let times = Register::new(alloc, room)?;
        let dead = Register::new(alloc, room)?;
        let remembered = Register::new(alloc, room)?;
        Ok(Table {
            dests,
            times,
            dead,
            remembered,
        })
    }

    /// This does nothing, and is there for callers whose proofs want to know it.
    pub(crate) fn stand_apart(&self)
        ensures apart { AreApart self.now.items }
        ensures bounded { AreBounded self.now.items }
        ensures within { length self.now.items ≤ self.now.room }
        ensures few { self.now.room < 2 ^ 30 }
    {
        self.dests.stand_apart();
    }

    /// How many more have room.
    pub(crate) fn spare(&self) -> u32
        ensures { result ≡ self.now.room - length self.now.items }
    {
        self.dests.spare()
    }

    pub(crate) fn get(&self, site: &Site) -> Option<Dest>
        ensures { result ≡ find (is_at site.now) self.now.items }
    {
        let number = self.dests.find(site)?;
        self.dests.get(number).copied()
    }

    pub(crate) fn first(&self) -> Option<Dest>
        ensures { result ≡ first_dest self.now.items }
    {
        let number = self.dests.first()?;
        self.dests.get(number).copied()
    }

    /// The one right behind the site.
    pub(crate) fn behind(&self, site: &Site) -> Option<Dest>
        ensures { result ≡ first_dest (behind_dests site.now self.now.items) }
    {
        let number = self.dests.find(site)?;
        let next = self.dests.next(number)?;
        self.dests.get(next).copied()
    }

    /// Adds one behind all others.
    pub(crate) fn push(&mut self, dest: Dest)
        requires absent { find (is_at dest.known.site) self.old.items ≡ None }
        requires room { length self.old.items < self.old.room }
        ensures { self.new ≡ record self.old { items = self.old.items ++ dest ∷ [] } }
    {
        dest.known.stay_bounded();
        let time_rank = dest.time_rank();
        let dead_rank = dest.dead_rank();
        let remembered_rank = dest.remembered_rank();
        let number = self.dests.push(dest);
        self.times.push(member(number, time_rank));
        self.dead.push(member(number, dead_rank));
        self.remembered.push(member(number, remembered_rank));
    }

    /// Puts another in the place of the one that was found.
    pub(crate) fn set(&mut self, found: &Dest, dest: Dest)
        requires { find (is_at dest.known.site) self.old.items ≡ Some found.now }
        ensures { self.new ≡ record self.old
            { items = map (changed_at dest.known.site (λ d. dest)) self.old.items } }
    {
        dest.known.stay_bounded();
        if let Some(number) = self.dests.find(dest.site()) {
            self.dests.put(number, dest);
            rank_at(&mut self.times, number, found.time_rank(), dest.time_rank());
            rank_at(&mut self.dead, number, found.dead_rank(), dest.dead_rank());
            rank_at(
                &mut self.remembered,
                number,
                found.remembered_rank(),
                dest.remembered_rank(),
            );
        }
    }

    pub(crate) fn remove(&mut self, site: &Site)
        ensures { self.new ≡ record self.old
            { items = filter (λ d. not (is_at site.now d)) self.old.items } }
    {
        if let Some(number) = self.dests.find(site) {
            let _dest = self.dests.remove(number);
            let _time = self.times.remove(&number);
            let _dead = self.dead.remove(&number);
            let _remembered = self.remembered.remove(&number);
        }
    }

    /// The first that is dead and whose time has come, or whose rest is over.
    pub(crate) fn first_due(&self, moment: Moment) -> Option<Dest>
        requires { moment < 2 ^ 64 - 1 }
        ensures { result ≡ find (is_due_at moment) self.now.items }
    {
        self.dests.stand_apart();
        let member = self.times.first_within(moment)?;
        self.dests.get(member.key).copied()
    }

    pub(crate) fn first_dead(&self) -> Option<Dest>
        ensures { result ≡ find is_dead self.now.items }
    {
        self.dests.stand_apart();
        let member = self.dead.first_within(0)?;
        self.dests.get(member.key).copied()
    }

    pub(crate) fn first_remembered(&self) -> Option<Dest>
        ensures { result ≡ find is_remembered self.now.items }
    {
        self.dests.stand_apart();
        let member = self.remembered.first_within(0)?;
        self.dests.get(member.key).copied()
    }
}
