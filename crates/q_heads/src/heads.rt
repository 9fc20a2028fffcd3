//! The tickets and their heads.
ghost use Rattle.std.specs.Prelude.{◌≡◌, ◌≤◌, ◌<◌, ◌-◌, ◌^◌, ◌&&◌, [], filter, find, IfOk, length, None, replicate, set};
ghost use Rattle.q_sorted.specs.Tickets.{goes_before, inserted, is_another, is_of, Rises};
ghost use Rattle.q_heads.specs.Lanes.{AreKnown, class_of, foremost, heads_behind, heads_of};

use crate::marks::{mark_in, mark_of, renew};
use q_sorted::{Sorted, Ticket};
use std::alloc::{AllocError, Global};
use std::marker::Model;

/// Tickets in lanes, with their heads. A ticket's group is its lane. A contract sees the tickets as
/// one list, with the class of each lane.
#[derive(Debug, Drop)]
pub struct Heads {
    tickets: Sorted,
    /// One for each lane with a ticket.
    marks: Sorted,
    /// The class of each lane.
    classes: Vec<u32>,
}

impl Model for Heads {
    ghost use Rattle.q_heads.specs.Lanes.{Lanes};
    ghost use Rattle.q_heads.specs.Marks.{IsSound, seen};

    ghost Value = { Lanes };

    ghost view = { λ a. seen a.tickets a.classes.items };

    ghost invariant = { λ a. IsSound a.tickets a.marks a.classes.items };
}

/// The class of a lane.
fn class_of(classes: &Vec<u32>, lane: u32) -> u32
    requires { lane < length classes.now.items }
    ensures { result ≡ class_of lane classes.now.items }
{
    classes[lane as usize]
}

impl Heads {
    /// No ticket, room for so many, and so many lanes, all of class 0.
    pub fn new(alloc: Global, lanes: u32, room: u32) -> Result<Heads, AllocError>
        requires some_lanes { 1 ≤ lanes }
        requires few_lanes { lanes < 2 ^ 30 }
        requires some { 1 ≤ room }
        requires few { room < 2 ^ 30 }
        ensures { IfOk result (λ made. made
            ≡ record { items = []; classes = replicate lanes 0; room = room; lanes = lanes }) }
    {
        let tickets = Sorted::new(alloc, room)?;
        let marks = Sorted::new(alloc, lanes)?;
        let classes = vec![in alloc; 0; lanes as usize]?;
        Ok(Heads {
            tickets,
            marks,
            classes,
        })
    }

    /// The tickets stand in order, and no more than have room, each in a lane that there is,
    /// whatever was called: this does nothing, and is there for callers whose proofs want to know
    /// it.
    pub fn stand_sorted(&self)
        ensures rising { Rises self.now.items }
        ensures within { length self.now.items ≤ self.now.room }
        ensures known { AreKnown self.now.lanes self.now.items }
        ensures classes { length self.now.classes ≡ self.now.lanes }
    {
        self.tickets.stand_sorted();
    }

    /// How many tickets there are in all lanes.
    pub fn len(&self) -> u32
        ensures { result ≡ length self.now.items }
    {
        self.tickets.len()
    }

    /// How many tickets more have room.
    pub fn spare(&self) -> u32
        ensures { result ≡ self.now.room - length self.now.items }
    {
        self.tickets.spare()
    }

    /// Puts the ticket in its place, and does nothing where it is there already.
    pub fn insert(&mut self, ticket: Ticket)
        requires room { length self.old.items < self.old.room }
        requires known { ticket.group < self.old.lanes }
        ensures { self.new ≡ record self.old { items = inserted ticket self.old.items } }
    {
        self.marks.stand_sorted();
        let lane = ticket.group;
        let class = class_of(&self.classes, lane);
        let from = mark_in(&self.tickets, class, lane);
        self.tickets.insert(ticket);
        let to = mark_in(&self.tickets, class, lane);
        renew(&mut self.marks, from, to);
    }

    /// Takes the ticket out, and does nothing where it isn't there.
    pub fn remove(&mut self, ticket: &Ticket)
        ensures { self.new ≡ record self.old
            { items = filter (is_another ticket.now) self.old.items } }
    {
        let lane = ticket.group;
        // no ticket stands in a lane that there isn't
        if lane as usize >= self.classes.len() {
            return;
        }
        self.marks.stand_sorted();
        let class = class_of(&self.classes, lane);
        let from = mark_in(&self.tickets, class, lane);
        self.tickets.remove(ticket);
        let to = mark_in(&self.tickets, class, lane);
        renew(&mut self.marks, from, to);
    }

    /// Lets a lane be of the class, with the tickets that stand in it.
    pub fn set_class(&mut self, lane: u32, class: u32)
        requires { lane < self.old.lanes }
        ensures { self.new ≡ record self.old { classes = set self.old.classes lane class } }
    {
        self.marks.stand_sorted();
        let old = class_of(&self.classes, lane);
        let from = mark_in(&self.tickets, old, lane);
        let to = mark_in(&self.tickets, class, lane);
        self.classes[lane as usize] = class;
        renew(&mut self.marks, from, to);
    }

    /// The first ticket of the lane.
    pub fn first_of_lane(&self, lane: u32) -> Option<Ticket>
        ensures { result ≡ find (is_of lane) self.now.items }
    {
        self.tickets.first_of(lane)
    }

    /// The ticket right behind this one in its lane, whether this one stands there or not.
    pub fn behind_in_lane(&self, ticket: &Ticket) -> Option<Ticket>
        ensures { result
            ≡ find (λ x. is_of ticket.now.group x && goes_before ticket.now x) self.now.items }
    {
        let next = self.tickets.behind(ticket)?;
        if next.group == ticket.group {
            Some(next)
        } else {
            None
        }
    }

    /// The first head of the class.
    pub fn first(&self, class: u32) -> Option<Ticket>
        ensures { result ≡ foremost (heads_of class self.now) }
    {
        let mark = self.marks.first_of(class)?;
        self.tickets.first_of(mark.item)
    }

    /// The next head behind the ticket, of the class of its lane, whether it is a head or not.
    pub fn behind(&self, head: &Ticket) -> Option<Ticket>
        requires { head.now.group < self.now.lanes }
        ensures { result ≡ foremost (heads_behind head.now self.now) }
    {
        let class = class_of(&self.classes, head.group);
        let mark = self.marks.behind(&mark_of(class, head))?;
        if mark.group == class {
            self.tickets.first_of(mark.item)
        } else {
            None
        }
    }
}
