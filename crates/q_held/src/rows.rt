//! The rows, and how they come and go.
ghost use Rattle.std.specs.Prelude.{◌≡◌, ◌<◌, ◌≤◌, ◌-◌, ◌++◌, ◌^◌, [], ◌∷◌, Bool, IfOk, filter, find, length, None, not, option_map, Some};
ghost use Rattle.std.specs.List.{AllByRecursion};
ghost use Rattle.std.specs.Option.{is_some};
ghost use Rattle.q_model.specs.Lists.{drop_first};
ghost use Rattle.q_model.specs.declared.rows.Row.{Row};
ghost use Rattle.q_peers.specs.Numbered.{AreApart, first_such, has_number, row_at};
ghost use Rattle.q_positions.specs.Rows.{row_shown};
ghost use Rattle.q_held.specs.Held.{numbered, plain, rows_of};

use q_marked::Marked;
use q_peers::Waiting;
use q_positions::RowRef;
use std::alloc::{AllocError, Global};
use std::marker::Model;

/// The rows that wait. A contract sees them as a list of rows with their numbers, each held back
/// or not.
#[derive(Debug, Drop)]
pub struct Rows {
    pub(crate) waiting: Waiting,
    /// The numbers of the rows in their order. Those of rows that are held back are marked.
    pub(crate) marks: Marked,
}

impl Model for Rows {
    ghost use Rattle.q_held.specs.Held.{Held};
    ghost use Rattle.q_held.specs.Sound.{IsSound, with_marks};

    ghost Value = { Held };

    ghost view = { λ a. record {
      items = with_marks a.marks.marks a.waiting.items;
      room = a.waiting.room;
      most = a.waiting.most;
    } };

    ghost invariant = { λ a. IsSound a.waiting a.marks };
}

impl Rows {
    /// No row, and room for so many, each of so many positions at most. For each of them it takes
    /// what `q_peers` does, and less than 80 bytes more. An error says that memory is wanting.
    pub fn new(alloc: Global, room: u32, most: u32) -> Result<Rows, AllocError>
        requires some { 1 ≤ room }
        requires few { room < 2 ^ 30 }
        requires one { 1 ≤ most }
        requires short { most ≤ 1024 }
        ensures { IfOk result (λ made. made
            ≡ record { items = []; room = room; most = most }) }
    {
        let waiting = Waiting::new(alloc, room, most)?;
        let marks = Marked::new(alloc, room)?;
        Ok(Rows { waiting, marks })
    }

    /// No two rows have one number, there are no more than have room, and none has more positions
    /// than have room, whatever was called: this does nothing, and is there for callers whose proofs
    /// want to know it.
    pub fn stand_apart(&self)
        ensures apart { AreApart (plain self.now.items) }
        ensures within { length self.now.items ≤ self.now.room }
        ensures few { self.now.room < 2 ^ 30 }
        ensures short { AllByRecursion (λ r. length r.positions ≤ self.now.most)
            (rows_of self.now.items) }
    {
        self.waiting.stand_apart();
    }

    /// How many rows wait.
    pub fn len(&self) -> usize
        ensures { result ≡ length self.now.items }
    {
        self.waiting.len()
    }

    /// How many rows more have room.
    pub fn spare(&self) -> u32
        ensures { result ≡ self.now.room - length self.now.items }
    {
        self.waiting.spare()
    }

    /// How many positions a row has room for.
    pub fn most(&self) -> u32
        ensures { result ≡ self.now.most }
    {
        self.waiting.most()
    }

    /// The row of a number.
    pub fn get(&self, number: u32) -> Option<RowRef<'_>>
        ensures { option_map row_shown result ≡ row_at number (plain self.now.items) }
    {
        self.waiting.get(number)
    }

    /// Adds a row behind all others, held back or not, and gives the number that it has from now
    /// on.
    pub fn push(&mut self, row: RowRef<'_>, held: bool) -> u32
        requires room { length self.old.items < self.old.room }
        requires positions { length row.positions.now ≤ self.old.most }
        ensures items { self.new ≡ record self.old {
          items = self.old.items
              ++ record { number = result; row = row_shown row.entry; held = held } ∷ [];
        } }
        ensures rows { rows_of self.new.items
            ≡ rows_of self.old.items ++ row_shown row.entry ∷ [] }
        ensures fresh { find (has_number result) (plain self.old.items) ≡ None }
        ensures below { result < self.old.room }
    {
        self.marks.stand_marked();
        let number = self.waiting.push(row);
        self.marks.push(number, held);
        number
    }

    /// Takes the row of a number out, and tells whether there was one.
    pub fn remove(&mut self, number: u32) -> bool
        ensures taken { result ≡ is_some (row_at number (plain self.old.items)) }
        ensures items { self.new ≡ record self.old
            { items = filter (λ h. not (has_number number (numbered h))) self.old.items } }
        ensures rows { (p : Row → Bool) → first_such p (plain self.old.items) ≡ Some number
            → rows_of self.new.items ≡ drop_first p (rows_of self.old.items) }
    {
        self.marks.stand_marked();
        if !self.waiting.remove(number) {
            return false;
        }
        self.marks.remove(number);
        true
    }
}
