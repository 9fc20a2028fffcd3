//! The order.
ghost use Rattle.std.specs.List.{AllByRecursion, IsDistinct};
ghost use Rattle.std.specs.Prelude.{◌≡◌, ◌≢◌, ◌<◌, ◌≤◌, ◌+◌, ◌++◌, ◌∷◌, ◌^◌, [], false, get_or, IfOk, length, nat_eq, replicate, true, ℕ};
ghost use Rattle.q_chains.specs.Lists.{ahead_of, behind, first_of, inserted, is_in, last_of, without};
ghost use Rattle.q_ranks.specs.Ranking.{AreLow, rank_of, Rises};

use crate::giving::{ORDER, give_rank, rank_behind, rank_between, rank_of};
use q_chains::Chains;
use std::alloc::{AllocError, Global};
use std::marker::Model;

/// Numbers below a limit in an order, each of them with its rank.
#[derive(Debug, Drop)]
pub struct Ranked {
    /// One list.
    order: Chains,
    /// The rank of each number, as it was last where the number isn't in the order.
    ranks: Vec<u64>,
    numbers: u32,
}

impl Model for Ranked {
    ghost use Rattle.std.specs.Prelude.{[], get_or};
    ghost use Rattle.q_ranks.specs.Ranking.{Ranking};
    ghost use Rattle.q_ranks.specs.Sound.{IsSound};

    ghost Value = { Ranking };

    ghost view = { λ a. record {
      order = get_or a.order.lists 0 [];
      ranks = a.ranks.items;
      numbers = a.numbers;
    } };

    ghost invariant = { λ a. IsSound a.order a.ranks.items a.numbers };
}

impl Ranked {
    /// No number in the order, of so many that there are. It makes all room that is ever used, 16
    /// bytes for each of them, and an error says that memory is wanting.
    pub fn new(alloc: Global, numbers: u32) -> Result<Ranked, AllocError>
        requires { numbers < 2 ^ 31 }
        ensures { IfOk result (λ made. made
            ≡ record { order = []; ranks = replicate numbers 0; numbers = numbers }) }
    {
        let order = Chains::new(alloc, 1, numbers)?;
        let ranks = vec![in alloc; 0; numbers as usize]?;
        Ok(Ranked {
            order,
            ranks,
            numbers,
        })
    }

    /// Ranks rise along the order, and a number stands in it once at most, whatever was called: this
    /// does nothing, and is there for callers whose proofs want to know it.
    pub fn stand_ranked(&self)
        ensures rise { Rises self.now.ranks self.now.order }
        ensures once { IsDistinct nat_eq self.now.order }
        ensures below { AllByRecursion (λ n. n < self.now.numbers) self.now.order }
        ensures each { length self.now.ranks ≡ self.now.numbers }
        ensures low { AreLow self.now.ranks }
        ensures few { self.now.numbers < 2 ^ 31 }
    {
        self.order.stand_once();
    }

    /// Whether the number stands in the order.
    pub fn contains(&self, number: u32) -> bool
        requires { number < self.now.numbers }
        ensures { result ≡ is_in number self.now.order }
    {
        self.order.contains(number)
    }

    /// The first number, or None where the order is empty.
    pub fn first(&self) -> Option<u32>
        ensures { result ≡ first_of self.now.order }
    {
        self.order.first(ORDER)
    }

    /// The last number, or None where the order is empty.
    pub fn last(&self) -> Option<u32>
        ensures { result ≡ last_of self.now.order }
    {
        self.order.last(ORDER)
    }

    /// The number right behind this one, or None where it is the last.
    pub fn next(&self, number: u32) -> Option<u32>
        requires { is_in number self.now.order ≡ true }
        ensures { result ≡ behind number self.now.order }
    {
        self.order.next(number)
    }

    /// The number right before this one, or None where it is the first.
    pub fn before(&self, number: u32) -> Option<u32>
        requires { is_in number self.now.order ≡ true }
        ensures { result ≡ ahead_of number self.now.order }
    {
        self.order.before(number)
    }

    /// The rank of a number. Of two in the order the one that stands first has the lower rank. All
    /// are below 2^63, so greater numbers are free for marks of a caller's own.
    pub fn rank(&self, number: u32) -> u64
        ensures is { result ≡ get_or self.now.ranks number 0 }
        ensures low { result < 2 ^ 63 }
    {
        rank_of(&self.ranks, Some(number))
    }

    /// Adds the number, which doesn't stand in the order, behind all others. It says whether all
    /// were ranked anew; else the others have the ranks that they had.
    pub fn push(&mut self, number: u32) -> bool
        requires known { number < self.old.numbers }
        requires free { is_in number self.old.order ≡ false }
        ensures order { self.new.order ≡ self.old.order ++ number ∷ [] }
        ensures kept { result ≡ false → (n : ℕ) → n ≢ number
            → get_or self.new.ranks n 0 ≡ get_or self.old.ranks n 0 }
        ensures anew { result ≡ true
            → 2 ^ 63 ≤ rank_of self.old.ranks (last_of self.old.order) + 2 ^ 32 }
        ensures numbers { self.new.numbers ≡ self.old.numbers }
    {
        let rank = rank_behind(rank_of(&self.ranks, self.order.last(ORDER)));
        self.order.push(ORDER, number);
        give_rank(&self.order, &mut self.ranks, number, rank)
    }

    /// Adds the number, which doesn't stand in the order, right before another, which does. It says
    /// whether all were ranked anew; else the others have the ranks that they had.
    pub fn insert_before(&mut self, number: u32, at: u32) -> bool
        requires known { number < self.old.numbers }
        requires free { is_in number self.old.order ≡ false }
        requires there { is_in at self.old.order ≡ true }
        ensures order { self.new.order ≡ inserted number at self.old.order }
        ensures kept { result ≡ false → (n : ℕ) → n ≢ number
            → get_or self.new.ranks n 0 ≡ get_or self.old.ranks n 0 }
        ensures anew { result ≡ true → get_or self.old.ranks at 0
            ≤ rank_of self.old.ranks (ahead_of at self.old.order) + 1 }
        ensures numbers { self.new.numbers ≡ self.old.numbers }
    {
        let lower = rank_of(&self.ranks, self.order.before(at));
        let rank = rank_between(lower, rank_of(&self.ranks, Some(at)));
        self.order.insert_before(number, at);
        give_rank(&self.order, &mut self.ranks, number, rank)
    }

    /// Takes the number out of the order, and does nothing where it doesn't stand in it.
    pub fn remove(&mut self, number: u32)
        requires { number < self.old.numbers }
        ensures { self.new ≡ record self.old { order = without number self.old.order } }
    {
        self.order.remove(number);
    }
}
