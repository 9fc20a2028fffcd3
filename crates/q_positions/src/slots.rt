//! Places for rows by number.
ghost use Rattle.std.specs.Prelude.{◌≡◌, ◌<◌, ◌≤◌, ◌^◌, get_or, IfOk, length, None, option_map, replicate, set, Some};
ghost use Rattle.std.specs.Option.{option_copied};
ghost use Rattle.q_positions.specs.Rows.{AreShort, row_shown};

use crate::head::Head;
use crate::lists::Lists;
use crate::row_ref::RowRef;
use std::alloc::{AllocError, Global};
use std::marker::Model;

/// Places for rows by number, each with a row or without one. A contract sees them as that, with
/// how many positions a row has room for.
#[derive(Debug, Drop)]
pub struct Slots {
    heads: Vec<Option<Head>>,
    /// The positions of the row of each number.
    positions: Lists,
}

impl Model for Slots {
    ghost use Rattle.std.specs.Prelude.{◌≡◌, length};
    ghost use Rattle.q_positions.specs.Heads.{slots_of};
    ghost use Rattle.q_positions.specs.Rows.{Slots as SlotsValue};

    ghost Value = { SlotsValue };

    ghost view = { λ a. record {
      rows = slots_of a.heads.items a.positions.lists;
      most = a.positions.most;
    } };

    ghost invariant = { λ a. length a.positions.lists ≡ length a.heads.items };
}

/// So many places without a row.
fn fresh_heads(alloc: Global, room: u32) -> Result<Vec<Option<Head>>, AllocError>
    ensures { IfOk result (λ made. made.items ≡ replicate room None) }
{
    let mut heads = Vec::with_capacity(alloc, room as usize)?;
    for _ in 0..room {
        heads.push_reserved(None);
    }
    Ok(heads)
}

/// The head of the row of a number.
fn head_at(heads: &Vec<Option<Head>>, number: u32) -> Option<&Head>
    ensures { option_copied result ≡ get_or heads.now.items number None }
{
    match heads.get(number as usize) {
        Some(Some(head)) => Some(head),
        _ => None,
    }
}

/// Puts the head of a row, or none, under a number.
fn put_head(heads: &mut Vec<Option<Head>>, number: u32, head: Option<Head>)
    requires { number < length heads.old.items }
    ensures { heads.new.items ≡ set heads.old.items number head }
{
    heads[number as usize] = head;
}

impl Slots {
    /// So many places without a row, each with room for so many positions. For each of them it
    /// takes the bytes of an id and a site, 4 for each position and less than 16 more. An error says
    /// that memory is wanting.
    pub fn new(alloc: Global, room: u32, most: u32) -> Result<Slots, AllocError>
        requires some { 1 ≤ room }
        requires few { room < 2 ^ 30 }
        requires one { 1 ≤ most }
        requires short { most ≤ 1024 }
        ensures { IfOk result (λ made. made
            ≡ record { rows = replicate room None; most = most }) }
    {
        let heads = fresh_heads(alloc, room)?;
        let positions = Lists::new(alloc, room, most)?;
        Ok(Slots { heads, positions })
    }

    /// How many places there are.
    pub fn count(&self) -> u32
        ensures { result ≡ length self.now.rows }
    {
        self.positions.count()
    }

    /// No row has more positions than have room, whatever was called: this does nothing, and is
    /// there for callers whose proofs want to know it.
    pub fn stand_short(&self)
        ensures { AreShort self.now.most self.now.rows }
    {
        self.positions.stand_short();
    }

    /// How many positions a row has room for.
    pub fn most(&self) -> u32
        ensures { result ≡ self.now.most }
    {
        self.positions.most()
    }

    /// The row of a number.
    pub fn get(&self, number: u32) -> Option<RowRef<'_>>
        ensures { option_map row_shown result ≡ get_or self.now.rows number None }
    {
        let head = head_at(&self.heads, number)?;
        Some(head.with(self.positions.get(number)))
    }

    /// Puts a row under a number, in place of the one that stands there.
    pub fn put(&mut self, number: u32, row: RowRef<'_>)
        requires known { number < length self.old.rows }
        requires room { length row.positions.now ≤ self.old.most }
        ensures { self.new ≡ record self.old {
          rows = set self.old.rows number (Some (row_shown row.entry));
        } }
    {
        self.positions.set(number, row.positions);
        put_head(&mut self.heads, number, Some(Head::of(row)));
    }

    /// Takes the row of a number away.
    pub fn clear(&mut self, number: u32)
        requires { number < length self.old.rows }
        ensures { self.new ≡ record self.old { rows = set self.old.rows number None } }
    {
        put_head(&mut self.heads, number, None);
    }
}
