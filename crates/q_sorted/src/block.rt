//! A block: a few tickets in order, in room that is made once.
ghost use Rattle.std.specs.Prelude.{◌≡◌, ◌≤◌, ◌<◌, ◌+◌, ◌++◌, [], drop, find, if◌then◌else◌, IfOk, length, not, slice_get, take};
ghost use Rattle.std.specs.List.{position_or_len};
ghost use Rattle.q_sorted.specs.Blocks.{block_room, ends_past, is_past, removed, stands_at};
ghost use Rattle.q_sorted.specs.Tickets.{goes_before, inserted, Rises};

use crate::ticket::{Cut, Ticket};
use std::alloc::{AllocError, Global};
use std::marker::Model;

/// How many tickets a block has room for.
const ROOM: usize = 92;

/// Tickets in order.
#[derive(Debug, Drop)]
pub(crate) struct Block {
    tickets: Vec<Ticket>,
}

impl Model for Block {
    ghost use Rattle.std.specs.Prelude.{◌≤◌, List, vec_capacity};
    ghost use Rattle.q_sorted.specs.Blocks.{block_room};
    ghost use Rattle.q_sorted.specs.declared.ticket.Ticket.{Ticket};

    ghost Value = { List Ticket };

    ghost view = { λ a. a.tickets.items };

    ghost invariant = { λ a. block_room ≤ vec_capacity a.tickets };
}

/// How many of the tickets stand before the cut.
fn place_of(tickets: &[Ticket], cut: &Cut) -> usize
    requires { Rises tickets.now }
    ensures within { result ≤ length tickets.now }
    ensures is { result ≡ position_or_len (is_past cut.now) tickets.now }
{
    tickets.partition_point(|ticket| !cut.is_past(ticket))
}

/// The ticket at the place.
fn ticket_at(tickets: &[Ticket], place: usize) -> Option<Ticket>
    ensures { result ≡ slice_get tickets.now place }
{
    match tickets.get(place) {
        Some(ticket) => Some(*ticket),
        None => None,
    }
}

/// Whether a ticket stands at the place that doesn't go behind this one.
fn stands_at(tickets: &[Ticket], place: usize, ticket: &Ticket) -> bool
    ensures { result ≡ stands_at place ticket.now tickets.now }
{
    place < tickets.len() && !ticket.goes_before(&tickets[place])
}

impl Block {
    pub(crate) fn new(alloc: Global) -> Result<Block, AllocError>
        ensures { IfOk result (λ made. made ≡ []) }
    {
        let tickets = Vec::with_capacity(alloc, ROOM)?;
        Ok(Block { tickets })
    }

    pub(crate) fn len(&self) -> usize
        ensures { result ≡ length self.now }
    {
        self.tickets.len()
    }

    /// Whether the last ticket is past the cut.
    pub(crate) fn ends_past(&self, cut: &Cut) -> bool
        ensures { result ≡ ends_past cut.now self.now }
    {
        let len = self.tickets.len();
        len > 0 && cut.is_past(&self.tickets[len - 1])
    }

    /// The first ticket past the cut.
    pub(crate) fn first_past(&self, cut: &Cut) -> Option<Ticket>
        requires { Rises self.now }
        ensures { result ≡ find (is_past cut.now) self.now }
    {
        let tickets = self.tickets.as_slice();
        ticket_at(tickets, place_of(tickets, cut))
    }

    /// Puts the ticket in its place, and says whether it is new.
    pub(crate) fn insert(&mut self, ticket: Ticket) -> bool
        requires rising { Rises self.old }
        requires room { length self.old < block_room }
        ensures inserted { self.new ≡ inserted ticket self.old }
        ensures counted { length self.new ≡ length self.old + (if result then 1 else 0) }
    {
        let cut = Cut {
            ticket,
            behind: false,
        };
        let tickets = self.tickets.as_slice();
        let place = place_of(tickets, &cut);
        if stands_at(tickets, place, &ticket) {
            return false;
        }
        let _ = self.tickets.insert(place, ticket);
        true
    }

    /// Takes the ticket out, and says whether it was there.
    pub(crate) fn remove(&mut self, ticket: &Ticket) -> bool
        requires { Rises self.old }
        ensures removed { self.new ≡ removed ticket.now self.old }
        ensures counted { length self.new + (if result then 1 else 0) ≡ length self.old }
    {
        let cut = Cut {
            ticket: *ticket,
            behind: false,
        };
        let tickets = self.tickets.as_slice();
        let place = place_of(tickets, &cut);
        if !stands_at(tickets, place, ticket) {
            return false;
        }
        self.tickets.remove(place);
        true
    }

    /// Moves all behind the first so many tickets into another block, over what it had.
    pub(crate) fn split(&mut self, count: usize, upper: &mut Block)
        requires within { count ≤ length self.old }
        requires room { length self.old ≤ count + block_room }
        ensures lower { self.new ≡ take count self.old }
        ensures upper { upper.new ≡ drop count self.old }
    {
        upper.tickets.clear();
        let _ = upper.tickets.extend_from_slice(&self.tickets[count..]);
        self.tickets.truncate(count);
    }

    /// Moves the tickets of the next block behind its own.
    pub(crate) fn append(&mut self, next: &mut Block)
        requires { length self.old + length next.old ≤ block_room }
        ensures { self.new ≡ self.old ++ next.old }
    {
        let _ = self.tickets.append(&mut next.tickets);
    }
}
