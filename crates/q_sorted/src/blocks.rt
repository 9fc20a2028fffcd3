//! Blocks in order, and those that wait empty.
ghost use Rattle.std.specs.Prelude.{◌≡◌, ◌≤◌, ◌<◌, ◌+◌, ◌-◌, ◌^◌, [], ◌∷◌, find, if◌then◌else◌, IfOk, length, vec_capacity};
ghost use Rattle.std.specs.List.{position_or_len};
ghost use Rattle.q_sorted.specs.Blocks.{AreSound, block_at, block_room, blocks_for, ends_past, half, is_past, joined, mended, most, parted, removed, settled, united, with_block};
ghost use Rattle.q_sorted.specs.Tickets.{inserted, Rises};

use crate::block::Block;
use crate::ticket::{Cut, Ticket};
use std::alloc::{AllocError, Global};
use std::marker::Model;

/// How many tickets a block has at most.
const MOST: usize = 64;
/// How many each but the first has at least.
const LEAST: usize = 28;
/// How many stay in a block that is parted.
const HALF: usize = 32;

/// Blocks in order, with room for so many. The first one may be empty.
#[derive(Debug, Drop)]
pub(crate) struct Blocks {
    used: Vec<Block>,
    free: Vec<Block>,
}

impl Model for Blocks {
    ghost use Rattle.q_sorted.specs.Blocks.{all_blocks, Blocks, HaveRoom};

    ghost Value = { Blocks };

    ghost view = { λ a. all_blocks a.used.items a.free.items };

    ghost invariant = { λ a. HaveRoom a.used a.free };
}

/// How many blocks so many tickets can fill, and one more.
pub(crate) fn blocks_for(room: u32) -> usize
    ensures { result ≡ blocks_for room }
{
    room as usize / LEAST + 2
}

/// So many empty blocks, with room for one more.
fn empty_blocks(alloc: Global, count: usize) -> Result<Vec<Block>, AllocError>
    requires { count < 2 ^ 32 }
    ensures len { IfOk result (λ made. length made.items ≡ count) }
    ensures room { IfOk result (λ made. count + 1 ≤ vec_capacity made) }
{
    let mut made = Vec::with_capacity(alloc, count + 1)?;
    for _ in 0..count {
        made.push_reserved(Block::new(alloc)?);
    }
    Ok(made)
}

/// The first block that ends past the cut, or how many there are.
fn first_ending_past(blocks: &[Block], cut: &Cut) -> usize
    requires { AreSound blocks.now }
    ensures { result ≡ position_or_len (ends_past cut.now) blocks.now }
{
    blocks.partition_point(|block| !block.ends_past(cut))
}

impl Blocks {
    /// One empty block, and room for so many.
    pub(crate) fn new(alloc: Global, total: usize) -> Result<Blocks, AllocError>
        requires some { 1 ≤ total }
        requires few { total < 2 ^ 32 }
        ensures { IfOk result (λ made. made ≡ record { lists = [] ∷ []; total = total }) }
    {
        let free = empty_blocks(alloc, total - 1)?;
        let mut used = Vec::with_capacity(alloc, total)?;
        used.push_reserved(Block::new(alloc)?);
        Ok(Blocks { used, free })
    }

    /// The first block that ends past the cut, or how many there are.
    fn place_of(&self, cut: &Cut) -> usize
        requires { AreSound self.now.lists }
        ensures { result ≡ position_or_len (ends_past cut.now) self.now.lists }
    {
        first_ending_past(self.used.as_slice(), cut)
    }

    /// The first ticket past the cut.
    pub(crate) fn first_past(&self, cut: &Cut) -> Option<Ticket>
        requires { AreSound self.now.lists }
        ensures { result ≡ find (is_past cut.now) (joined self.now.lists) }
    {
        let place = self.place_of(cut);
        if place < self.used.len() {
            self.used[place].first_past(cut)
        } else {
            None
        }
    }

    /// How many blocks there are.
    fn count(&self) -> usize
        ensures { result ≡ length self.now.lists }
    {
        self.used.len()
    }

    /// How many tickets a block has.
    fn len_of(&self, place: usize) -> usize
        requires { place < length self.now.lists }
        ensures { result ≡ length (block_at place self.now.lists) }
    {
        self.used[place].len()
    }

    /// Puts the ticket into a block, and says whether it is new.
    fn put(&mut self, place: usize, ticket: Ticket) -> bool
        requires within { place < length self.old.lists }
        requires rising { Rises (block_at place self.old.lists) }
        requires room { length (block_at place self.old.lists) < block_room }
        ensures put { self.new
            ≡ with_block place (inserted ticket (block_at place self.old.lists)) self.old }
        ensures counted { length (inserted ticket (block_at place self.old.lists))
            ≡ length (block_at place self.old.lists) + (if result then 1 else 0) }
    {
        self.used[place].insert(ticket)
    }

    /// Takes the ticket out of a block, and says whether it was there.
    fn take_out(&mut self, place: usize, ticket: &Ticket) -> bool
        requires within { place < length self.old.lists }
        requires rising { Rises (block_at place self.old.lists) }
        ensures taken { self.new
            ≡ with_block place (removed ticket.now (block_at place self.old.lists)) self.old }
        ensures counted { length (removed ticket.now (block_at place self.old.lists))
            + (if result then 1 else 0) ≡ length (block_at place self.old.lists) }
    {
        self.used[place].remove(ticket)
    }

    /// Parts a block in two halves.
    fn part(&mut self, place: usize)
        requires within { place < length self.old.lists }
        requires long { half ≤ length (block_at place self.old.lists) }
        requires fits { length (block_at place self.old.lists) ≤ block_room }
        requires free { length self.old.lists < self.old.total }
        ensures { self.new ≡ record self.old { lists = parted place self.old.lists } }
    {
        let Some(mut upper) = self.free.pop() else {
            unreachable!()
        };
        self.used[place].split(HALF, &mut upper);
        let _ = self.used.insert(place + 1, upper);
    }

    /// Parts a block where it has more than the most.
    fn settle(&mut self, place: usize)
        requires within { place < length self.old.lists }
        requires fits { length (block_at place self.old.lists) ≤ block_room }
        requires free { length self.old.lists < self.old.total }
        ensures { self.new ≡ record self.old { lists = settled place self.old.lists } }
    {
        if self.len_of(place) > MOST {
            self.part(place);
        }
    }

    /// Unites a block with the next one.
    fn unite(&mut self, place: usize)
        requires within { place + 1 < length self.old.lists }
        requires fits { length (block_at place self.old.lists)
            + length (block_at (place + 1) self.old.lists) ≤ block_room }
        ensures united { self.new ≡ record self.old { lists = united place self.old.lists } }
        ensures free { length self.new.lists < self.new.total }
    {
        let mut next = self.used.remove(place + 1);
        self.used[place].append(&mut next);
        self.free.push_reserved(next);
    }

    /// Unites a block with the one before it where it has fewer than the least.
    fn mend(&mut self, place: usize)
        requires within { place < length self.old.lists }
        requires fits { length (block_at (place - 1) self.old.lists) ≤ most }
        ensures { self.new ≡ record self.old { lists = mended place self.old.lists } }
    {
        if place > 0 && self.len_of(place) < LEAST {
            self.unite(place - 1);
            self.settle(place - 1);
        }
    }

    /// Puts the ticket in its place, and says whether it is new.
    pub(crate) fn insert(&mut self, ticket: Ticket) -> bool
        requires sound { AreSound self.old.lists }
        requires free { length self.old.lists < self.old.total }
        ensures inserted { joined self.new.lists ≡ inserted ticket (joined self.old.lists) }
        ensures sound { AreSound self.new.lists }
        ensures total { self.new.total ≡ self.old.total }
        ensures counted { length (joined self.new.lists)
            ≡ length (joined self.old.lists) + (if result then 1 else 0) }
    {
        let cut = Cut {
            ticket,
            behind: false,
        };
        let place = self.place_of(&cut).min(self.count() - 1);
        let is_new = self.put(place, ticket);
        self.settle(place);
        is_new
    }

    /// Takes the ticket out, and says whether it was there.
    pub(crate) fn remove(&mut self, ticket: &Ticket) -> bool
        requires { AreSound self.old.lists }
        ensures removed { joined self.new.lists ≡ removed ticket.now (joined self.old.lists) }
        ensures sound { AreSound self.new.lists }
        ensures total { self.new.total ≡ self.old.total }
        ensures counted { length (joined self.new.lists) + (if result then 1 else 0)
            ≡ length (joined self.old.lists) }
    {
        let cut = Cut {
            ticket: *ticket,
            behind: false,
        };
        let place = self.place_of(&cut);
        if place >= self.count() {
            return false;
        }
        let was = self.take_out(place, ticket);
        self.mend(place);
        was
    }
}
