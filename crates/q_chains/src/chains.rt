//! The lists.
ghost use Rattle.std.specs.Prelude.{◌≡◌, ◌<◌, ◌+◌, ◌^◌, [], false, get_or, IfOk, length, List, map, replicate, true, ℕ};
ghost use Rattle.q_chains.specs.Lists.{ahead_of, behind, first_of, inserted, last_of, list_with, pushed, StandOnce, stands, without};

use crate::links::{fresh_befores, fresh_nexts, link_of, number_at, put_before, take_out};
use std::alloc::{AllocError, Global};
use std::marker::Model;

/// Lists of numbers below a limit; each number stands in one of them at most, and once.
#[derive(Debug, Drop)]
pub struct Chains {
    /// Where each place leads. The places are the numbers, and then the borders: one before each
    /// list, and one behind all.
    next: Vec<u32>,
    /// Where each place leads back to.
    before: Vec<u32>,
    numbers: u32,
}

impl Model for Chains {
    ghost use Rattle.q_chains.specs.Lists.{Lists};
    ghost use Rattle.q_chains.specs.Laid.{IsSound, lists_in};

    ghost Value = { Lists };

    ghost view = { λ a. record { lists = lists_in a.next.items a.numbers; numbers = a.numbers } };

    ghost invariant = { λ a. IsSound a.next.items a.before.items a.numbers };
}

impl Chains {
    /// So many lists, each of them empty, and so many numbers, of which none stands in a list. It
    /// makes all room that is ever used, 8 bytes for each number and each list, and an error says
    /// that memory is wanting.
    pub fn new(alloc: Global, lists: u32, numbers: u32) -> Result<Chains, AllocError>
        requires { lists + numbers < 2 ^ 32 }
        ensures { IfOk result (λ made. made
            ≡ record { lists = replicate lists []; numbers = numbers }) }
    {
        let next = fresh_nexts(alloc, numbers, numbers + lists)?;
        let before = fresh_befores(alloc, numbers, numbers + lists)?;
        Ok(Chains {
            next,
            before,
            numbers,
        })
    }

    /// A number stands in one list at most, and once, whatever was called: this does nothing, and is
    /// there for callers whose proofs want to know it.
    pub fn stand_once(&self)
        ensures { StandOnce self.now }
    {
        let _numbers = self.numbers;
    }

    /// Whether the number stands in a list.
    pub fn contains(&self, number: u32) -> bool
        requires { number < self.now.numbers }
        ensures { result ≡ stands number self.now.lists }
    {
        link_of(&self.before, number) != number
    }

    /// The first number of the list, or None where it is empty.
    pub fn first(&self, list: u32) -> Option<u32>
        requires { list < length self.now.lists }
        ensures is { result ≡ first_of (get_or self.now.lists list []) }
        ensures once { StandOnce self.now }
    {
        number_at(self.numbers, link_of(&self.next, self.numbers + list))
    }

    /// The last number of the list, or None where it is empty.
    pub fn last(&self, list: u32) -> Option<u32>
        requires { list < length self.now.lists }
        ensures is { result ≡ last_of (get_or self.now.lists list []) }
        ensures once { StandOnce self.now }
    {
        number_at(self.numbers, link_of(&self.before, self.numbers + list + 1))
    }

    /// The number right behind this one in its list, or None where it is the last.
    pub fn next(&self, number: u32) -> Option<u32>
        requires { stands number self.now.lists ≡ true }
        ensures is { result ≡ behind number (list_with number self.now.lists) }
        ensures once { StandOnce self.now }
    {
        number_at(self.numbers, link_of(&self.next, number))
    }

    /// The number right before this one in its list, or None where it is the first.
    pub fn before(&self, number: u32) -> Option<u32>
        requires { stands number self.now.lists ≡ true }
        ensures is { result ≡ ahead_of number (list_with number self.now.lists) }
        ensures once { StandOnce self.now }
    {
        number_at(self.numbers, link_of(&self.before, number))
    }

    /// Adds the number, which stands in no list, at the end of this one.
    pub fn push(&mut self, list: u32, number: u32)
        requires list { list < length self.old.lists }
        requires known { number < self.old.numbers }
        requires free { stands number self.old.lists ≡ false }
        ensures { self.new ≡ record self.old { lists = pushed list number self.old.lists } }
    {
        let border = self.numbers + list + 1;
        put_before(&mut self.next, &mut self.before, number, border);
    }

    /// Adds the number, which stands in no list, right before another, in the list of that one.
    pub fn insert_before(&mut self, number: u32, at: u32)
        requires known { number < self.old.numbers }
        requires free { stands number self.old.lists ≡ false }
        requires there { stands at self.old.lists ≡ true }
        ensures { self.new ≡ record self.old { lists = map (inserted number at) self.old.lists } }
    {
        put_before(&mut self.next, &mut self.before, number, at);
    }

    /// Takes the number out of the list in which it stands, and does nothing where it stands in none.
    pub fn remove(&mut self, number: u32)
        requires { number < self.old.numbers }
        ensures { self.new ≡ record self.old { lists = map (without number) self.old.lists } }
    {
        take_out(&mut self.next, &mut self.before, number);
    }
}
