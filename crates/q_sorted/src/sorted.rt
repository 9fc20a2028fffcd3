//! Tickets in order.
ghost use Rattle.std.specs.Prelude.{◌≡◌, ◌≤◌, ◌<◌, ◌-◌, ◌^◌, [], filter, find, IfOk, length, not};
ghost use Rattle.q_sorted.specs.Tickets.{goes_before, inserted, is_another, is_of, Rises};

use crate::blocks::{Blocks, blocks_for};
use crate::ticket::{Cut, Ticket};
use std::alloc::{AllocError, Global};
use std::marker::Model;

/// Tickets in order. A contract sees them as one list, with the room that there is.
#[derive(Debug, Drop)]
pub struct Sorted {
    blocks: Blocks,
    len: u32,
    room: u32,
}

impl Model for Sorted {
    ghost use Rattle.q_sorted.specs.Tickets.{Tickets};
    ghost use Rattle.q_sorted.specs.Blocks.{IsSound, joined};

    ghost Value = { Tickets };

    ghost view = { λ a. record { items = joined a.blocks.lists; room = a.room } };

    ghost invariant = { λ a. IsSound a.blocks a.len a.room };
}

impl Sorted {
    /// No ticket, and room for so many.
    pub fn new(alloc: Global, room: u32) -> Result<Sorted, AllocError>
        requires some { 1 ≤ room }
        requires few { room < 2 ^ 30 }
        ensures { IfOk result (λ made. made ≡ record { items = []; room = room }) }
    {
        let blocks = Blocks::new(alloc, blocks_for(room))?;
        Ok(Sorted {
            blocks,
            len: 0,
            room,
        })
    }

    /// The tickets stand in order, and there are no more than have room, whatever was called: this
    /// does nothing, and is there for callers whose proofs want to know it.
    pub fn stand_sorted(&self)
        ensures rising { Rises self.now.items }
        ensures within { length self.now.items ≤ self.now.room }
    {
        let _len = self.len;
    }

    /// How many tickets there are.
    pub fn len(&self) -> u32
        ensures { result ≡ length self.now.items }
    {
        self.len
    }

    /// How many tickets more have room.
    pub fn spare(&self) -> u32
        ensures { result ≡ self.now.room - length self.now.items }
    {
        self.room - self.len
    }

    /// Puts the ticket in its place, and does nothing where it is there already.
    pub fn insert(&mut self, ticket: Ticket)
        requires { length self.old.items < self.old.room }
        ensures { self.new ≡ record self.old { items = inserted ticket self.old.items } }
    {
        if self.blocks.insert(ticket) {
            self.len += 1;
        }
    }

    /// Takes the ticket out, and does nothing where it isn't there.
    pub fn remove(&mut self, ticket: &Ticket)
        ensures { self.new ≡ record self.old
            { items = filter (is_another ticket.now) self.old.items } }
    {
        if self.blocks.remove(ticket) {
            self.len -= 1;
        }
    }

    /// The first ticket that doesn't go before this one.
    pub fn first_from(&self, ticket: &Ticket) -> Option<Ticket>
        ensures is { result ≡ find (λ x. not (goes_before x ticket.now)) self.now.items }
        ensures rising { Rises self.now.items }
    {
        self.blocks.first_past(&Cut {
            ticket: *ticket,
            behind: false,
        })
    }

    /// The first ticket of the group.
    pub fn first_of(&self, group: u32) -> Option<Ticket>
        ensures is { result ≡ find (is_of group) self.now.items }
        ensures rising { Rises self.now.items }
    {
        let least = Ticket {
            group,
            key: 0,
            item: 0,
        };
        let first = self.first_from(&least)?;
        if first.group == group {
            Some(first)
        } else {
            None
        }
    }

    /// The first ticket behind this one.
    pub fn behind(&self, ticket: &Ticket) -> Option<Ticket>
        ensures is { result ≡ find (goes_before ticket.now) self.now.items }
        ensures rising { Rises self.now.items }
    {
        self.blocks.first_past(&Cut {
            ticket: *ticket,
            behind: true,
        })
    }
}
