//! Rows in order.
ghost use Rattle.std.specs.List.{AllByRecursion};
ghost use Rattle.std.specs.Prelude.{◌≡◌, ◌<◌, ◌≤◌, ◌-◌, ◌++◌, ◌^◌, [], ◌∷◌, IfOk, IfSome, length, option_map, slice_get};
ghost use Rattle.std.specs.Option.{option_copied};
ghost use Rattle.q_positions.specs.Rows.{joined_at, row_shown};

use crate::head::Head;
use crate::lists::Lists;
use crate::row_ref::RowRef;
use q_model::{Id, Site};
use std::alloc::{AllocError, Global};
use std::marker::Model;

/// Rows in order, as the recipients of one load are grouped. A contract sees them as that, with how
/// many rows have room, and how many positions a row has room for.
#[derive(Debug, Drop)]
pub struct RowList {
    heads: Vec<Head>,
    /// The positions of the row at each place.
    positions: Lists,
    room: u32,
}

impl Model for RowList {
    ghost use Rattle.q_positions.specs.Heads.{AreReserved, rows_of};
    ghost use Rattle.q_positions.specs.Rows.{Rows};

    ghost Value = { Rows };

    ghost view = { λ a. record {
      rows = rows_of a.heads.items a.positions.lists;
      room = a.room;
      most = a.positions.most;
    } };

    ghost invariant = { λ a. AreReserved a.heads a.positions a.room };
}

fn head_of(heads: &[Head], place: usize) -> Option<&Head>
    ensures { option_copied result ≡ slice_get heads.now place }
{
    heads.get(place)
}

impl RowList {
    /// No row, and room for so many, each with room for so many positions. For each of them it
    /// takes the bytes of an id and a site, 4 for each position and less than 16 more. An error says
    /// that memory is wanting.
    pub fn new(alloc: Global, room: u32, most: u32) -> Result<RowList, AllocError>
        requires some { 1 ≤ room }
        requires few { room < 2 ^ 30 }
        requires one { 1 ≤ most }
        requires short { most ≤ 1024 }
        ensures { IfOk result (λ made. made ≡ record { rows = []; room = room; most = most }) }
    {
        let heads = Vec::with_capacity(alloc, room as usize)?;
        let positions = Lists::new(alloc, room, most)?;
        Ok(RowList {
            heads,
            positions,
            room,
        })
    }

    /// Takes all rows away.
    pub fn clear(&mut self)
        ensures { self.new ≡ record self.old { rows = [] } }
    {
        self.heads.clear();
    }

    /// How many rows there are.
    pub fn len(&self) -> usize
        ensures { result ≡ length self.now.rows }
    {
        self.heads.len()
    }

    /// How many rows more have room.
    pub fn spare(&self) -> u32
        ensures { result ≡ self.now.room - length self.now.rows }
    {
        self.room - self.heads.len() as u32
    }

    /// No row has more positions than have room, whatever was called: this does nothing, and is
    /// there for callers whose proofs want to know it.
    pub fn stand_short(&self)
        ensures { AllByRecursion (λ r. length r.positions ≤ self.now.most) self.now.rows }
    {
        self.positions.stand_short();
    }

    /// How many positions a row has room for.
    pub fn most(&self) -> u32
        ensures { result ≡ self.now.most }
    {
        self.positions.most()
    }

    /// The row at a place, counted from 0.
    pub fn get(&self, place: usize) -> Option<RowRef<'_>>
        ensures { option_map row_shown result ≡ slice_get self.now.rows place }
    {
        let head = head_of(&self.heads, place)?;
        Some(head.with(self.positions.get(place as u32)))
    }

    /// Begins a row of one position, behind all others.
    pub fn begin(&mut self, id: Id, site: &Site, position: u32)
        requires { length self.old.rows < self.old.room }
        ensures { self.new ≡ record self.old {
          rows = self.old.rows
              ++ record { id = id; site = site.now; positions = position ∷ [] } ∷ [];
        } }
    {
        let place = self.heads.len() as u32;
        self.positions.set(place, &[position]);
        self.heads.push_reserved(Head { id, site: *site });
    }

    /// Adds a position at the end of a row.
    pub fn add(&mut self, place: usize, position: u32)
        requires known { place < length self.old.rows }
        requires room { IfSome
            (slice_get self.old.rows place) (λ r. length r.positions < self.old.most) }
        ensures { self.new ≡ record self.old {
          rows = joined_at place position self.old.rows;
        } }
    {
        self.positions.push(place as u32, position);
    }
}
