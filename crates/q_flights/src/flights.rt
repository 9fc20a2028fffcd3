//! The deliveries.
ghost use Rattle.std.specs.Option.{is_some};
ghost use Rattle.std.specs.Prelude.{◌≡◌, ◌<◌, ◌≤◌, ◌-◌, ◌++◌, ◌^◌, [], ◌∷◌, IfOk, count_by, filter, find, length, option_map};
ghost use Rattle.q_flights.specs.Flying.{AreRising, delivery_shown, has_number, IsAbove, is_at, is_other, started_earlier};
ghost use Rattle.q_model.specs.Lists.{least};
ghost use Rattle.q_positions.specs.Rows.{row_shown};

use crate::counts::{Counts, count_begun, count_ended};
use crate::delivery_head::DeliveryHead;
use crate::delivery_ref::DeliveryRef;
use q_keyed::Keyed;
use q_positions::{Lists, RowRef};
use std::alloc::{AllocError, Global};
use std::marker::Model;

/// The deliveries in flight. A contract sees them as a list.
#[derive(Debug, Drop)]
pub struct Flights {
    heads: Keyed<DeliveryHead>,
    /// The positions of each delivery, by the number of its head.
    positions: Lists,
    /// How many of them are at each transport.
    counts: Counts,
}

impl Model for Flights {
    ghost use Rattle.q_flights.specs.Flying.{Flying};

    ghost Value = { Flying };

    ghost use Rattle.q_flights.specs.Heads.{deliveries_of};
    ghost use Rattle.q_flights.specs.Sound.{AreKept};

    ghost view = { λ a. record {
      items = deliveries_of a.positions.lists a.heads.items;
      room = a.heads.room;
      most = a.positions.most;
    } };

    ghost invariant = { λ a. AreKept a.heads a.positions a.counts };
}

impl Flights {
    /// No delivery, and room for so many, each of so many positions at most. An error says that
    /// memory is wanting.
    pub fn new(alloc: Global, room: u32, most: u32) -> Result<Flights, AllocError>
        requires some { 1 ≤ room }
        requires few { room < 2 ^ 30 }
        requires one { 1 ≤ most }
        requires short { most ≤ 1024 }
        ensures { IfOk result (λ made. made
            ≡ record { items = []; room = room; most = most }) }
    {
        let heads = Keyed::new(alloc, room)?;
        let positions = Lists::new(alloc, room, most)?;
        Ok(Flights {
            heads,
            positions,
            counts: [0; 256],
        })
    }

    /// Numbers rise, so that no two are the same, and there are no more deliveries than have room,
    /// whatever was called: this does nothing, and is there for callers whose proofs want to know
    /// it.
    pub fn stand_apart(&self)
        ensures rise { AreRising self.now.items }
        ensures within { length self.now.items ≤ self.now.room }
        ensures few { self.now.room < 2 ^ 30 }
    {
        self.heads.stand_apart();
    }

    /// How many there are.
    pub fn len(&self) -> usize
        ensures { result ≡ length self.now.items }
    {
        self.heads.len()
    }

    /// How many more have room.
    pub fn spare(&self) -> u32
        ensures { result ≡ self.now.room - length self.now.items }
    {
        self.heads.spare()
    }

    /// The delivery of this number.
    pub fn get(&self, number: u64) -> Option<DeliveryRef<'_>>
        ensures { option_map delivery_shown result ≡ find (has_number number) self.now.items }
    {
        let at = self.heads.find(&number)?;
        let head = self.heads.get(at)?;
        Some(head.with(self.positions.get(at)))
    }

    /// The delivery with the least number.
    pub fn first(&self) -> Option<DeliveryRef<'_>>
        ensures { option_map delivery_shown result ≡ least started_earlier self.now.items }
    {
        let at = self.heads.first()?;
        let head = self.heads.get(at)?;
        Some(head.with(self.positions.get(at)))
    }

    /// How many are at the transport.
    pub fn at(&self, transport: u8) -> usize
        ensures { result ≡ count_by (is_at transport) self.now.items }
    {
        self.counts[usize::from(transport)] as usize
    }

    /// Adds a delivery of this row, behind all others.
    pub fn push(&mut self, number: u64, row: RowRef<'_>)
        requires room { length self.old.items < self.old.room }
        requires positions { length row.positions.now ≤ self.old.most }
        requires above { IsAbove number self.old.items }
        ensures { self.new ≡ record self.old {
          items = self.old.items ++ record { number = number; row = row_shown row.entry } ∷ [];
        } }
    {
        self.heads.stand_apart();
        let head = DeliveryHead {
            number,
            id: row.id,
            site: *row.site,
        };
        count_begun(&mut self.counts, head.transport());
        let at = self.heads.push(head);
        self.positions.set(at, row.positions);
    }

    /// Takes the delivery of this number out, and tells whether there was one.
    pub fn remove(&mut self, number: u64) -> bool
        ensures taken { result ≡ is_some (find (has_number number) self.old.items) }
        ensures items { self.new ≡ record self.old
            { items = filter (is_other number) self.old.items } }
    {
        let Some(at) = self.heads.find(&number) else {
            return false;
        };
        let Some(head) = self.heads.remove(at) else {
            return false;
        };
        count_ended(&mut self.counts, head.transport());
        true
    }
}
