//! The numbers and their marks.
ghost use Rattle.std.specs.Prelude.{◌≡◌, ◌<◌, ◌≤◌, ◌++◌, ◌∷◌, ◌^◌, [], false, find, IfOk, length, nat_eq, replicate, set};
ghost use Rattle.std.specs.List.{AllByRecursion, IsDistinct};
ghost use Rattle.q_chains.specs.Lists.{is_in, without};
ghost use Rattle.q_marked.specs.Marks.{is_marked, marked_where};

use crate::marking::{mark_anew, set_mark};
use q_least::Least;
use q_ranks::Ranked;
use std::alloc::{AllocError, Global};
use std::marker::Model;

/// Numbers below a limit in an order, each of them marked or not.
#[derive(Debug, Drop)]
pub struct Marked {
    order: Ranked,
    /// The rank of each number that is marked.
    keys: Least,
    numbers: u32,
}

impl Model for Marked {
    ghost use Rattle.q_marked.specs.Marks.{Marks};
    ghost use Rattle.q_marked.specs.Sound.{are_keyed, IsSound};

    ghost Value = { Marks };

    ghost view = { λ a. record {
      order = a.order.order;
      marks = are_keyed a.keys;
      numbers = a.numbers;
    } };

    ghost invariant = { λ a. IsSound a.order a.keys a.numbers };
}

impl Marked {
    /// No number in the order, of so many that there are. It makes all room that is ever used, less
    /// than 80 bytes for each of them, and an error says that memory is wanting.
    pub fn new(alloc: Global, numbers: u32) -> Result<Marked, AllocError>
        requires some { 1 ≤ numbers }
        requires few { numbers < 2 ^ 31 }
        ensures { IfOk result (λ made. made
            ≡ record { order = []; marks = replicate numbers false; numbers = numbers }) }
    {
        let order = Ranked::new(alloc, numbers)?;
        let keys = Least::new(alloc, numbers)?;
        Ok(Marked {
            order,
            keys,
            numbers,
        })
    }

    /// No number stands in the order twice, and each has a mark or none, whatever was called: this
    /// does nothing, and is there for callers whose proofs want to know it.
    pub fn stand_marked(&self)
        ensures once { IsDistinct nat_eq self.now.order }
        ensures below { AllByRecursion (λ n. n < self.now.numbers) self.now.order }
        ensures each { length self.now.marks ≡ self.now.numbers }
    {
        self.order.stand_ranked();
    }

    /// Whether the number stands in the order.
    pub fn contains(&self, number: u32) -> bool
        requires { number < self.now.numbers }
        ensures { result ≡ is_in number self.now.order }
    {
        self.order.contains(number)
    }

    /// Adds the number, which doesn't stand in the order, behind all others.
    pub fn push(&mut self, number: u32, marked: bool)
        requires known { number < self.old.numbers }
        requires free { is_in number self.old.order ≡ false }
        ensures { self.new ≡ record self.old {
          order = self.old.order ++ number ∷ [];
          marks = set self.old.marks number marked;
        } }
    {
        self.order.stand_ranked();
        let anew = self.order.push(number);
        self.order.stand_ranked();
        if anew {
            mark_anew(&mut self.keys, &self.order, self.numbers);
        }
        set_mark(&mut self.keys, &self.order, number, marked);
    }

    /// Marks the number, or takes its mark away, where it stands in the order.
    pub fn mark(&mut self, number: u32, marked: bool)
        requires { number < self.old.numbers }
        ensures { self.new ≡ record self.old
            { marks = marked_where number marked self.old.order self.old.marks } }
    {
        self.order.stand_ranked();
        if self.order.contains(number) {
            set_mark(&mut self.keys, &self.order, number, marked);
        }
    }

    /// Takes the number out of the order, and does nothing where it doesn't stand in it.
    pub fn remove(&mut self, number: u32)
        requires { number < self.old.numbers }
        ensures { self.new ≡ record self.old {
          order = without number self.old.order;
          marks = set self.old.marks number false;
        } }
    {
        self.order.stand_ranked();
        self.keys.set(number, Least::NONE);
        self.order.remove(number);
    }

    /// The first number in the order that is marked.
    pub fn first(&self) -> Option<u32>
        ensures { result ≡ find (λ n. is_marked n self.now.marks) self.now.order }
    {
        self.order.stand_ranked();
        self.keys.first()
    }
}
