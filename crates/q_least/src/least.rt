//! Keys by number.
ghost use Rattle.std.specs.Prelude.{◌≡◌, ◌<◌, ◌≤◌, ◌↔◌, All, IfOk, IfSome, IsNone, length, position, replicate, slice_get, slice_set, Some};
ghost use Rattle.q_least.specs.Keys.{IsLeastAt, is_within, key_at, no_key};

use crate::making::{clear_keys, leaves_for, no_keys};
use crate::tree::{Keyed, leaf_key, least_leaf, set_leaf};
use crate::within::first_leaf_within;
use std::alloc::{AllocError, Global};
use std::marker::Model;

/// A key for each number below a count. A contract sees it as the list of the keys.
#[derive(Debug, Drop)]
pub struct Least {
    tree: Vec<Keyed>,
    leaves: usize,
    count: u32,
}

impl Model for Least {
    ghost use Rattle.std.specs.Prelude.{List, ℕ};

    ghost Value = { List ℕ };

    ghost use Rattle.q_least.specs.Trees.{AreKeysIn, first_keys};

    ghost view = { λ a. first_keys a.count a.leaves a.tree.items };

    ghost invariant = { λ a. AreKeysIn a.count a.leaves a.tree.items };
}

impl Least {
    /// The greatest key, which each number has at first.
    pub const NONE: u64 = u64::MAX;

    /// So many numbers without a key. The count is rounded up to a power of two, and it takes 32
    /// bytes for each number of that, so less than 64 for each of the count, and as many steps.
    pub fn new(alloc: Global, count: u32) -> Result<Least, AllocError>
        requires { 1 ≤ count }
        ensures { IfOk result (λ made. made ≡ replicate count no_key) }
    {
        let leaves = leaves_for(count);
        let tree = no_keys(alloc, leaves)?;
        Ok(Least {
            tree,
            leaves,
            count,
        })
    }

    /// Gives a number another key, in steps as many as the count has bits.
    pub fn set(&mut self, number: u32, key: u64)
        requires { number < length self.old }
        ensures { self.new ≡ slice_set self.old number key }
    {
        set_leaf(&mut self.tree, self.leaves, number, key);
    }

    /// Takes the keys of all numbers away, in steps as many as there are numbers.
    pub fn clear(&mut self)
        ensures { self.new ≡ replicate (length self.old) no_key }
    {
        clear_keys(&mut self.tree, self.leaves);
    }

    /// The key of a number, `NONE` where it has none. It takes constant time.
    pub fn key(&self, number: u32) -> u64
        requires { number < length self.now }
        ensures { slice_get self.now number ≡ Some result }
    {
        leaf_key(&self.tree, self.leaves, number as usize)
    }

    /// The first number with the least key, which is `NONE` where no number has one. It takes
    /// constant time.
    pub fn least(&self) -> u32
        ensures { IsLeastAt self.now result }
    {
        least_leaf(&self.tree, self.leaves)
    }

    /// The first number with the least key, or None where no number has one. It takes constant
    /// time.
    pub fn first(&self) -> Option<u32>
        ensures none { IsNone result ↔ All (λ key. key ≡ no_key) self.now }
        ensures least { IfSome result (IsLeastAt self.now) }
        ensures keyed { IfSome result (λ number. key_at self.now number < no_key) }
    {
        let _ = &self.tree;
        let number = self.least();
        if self.key(number) == Least::NONE {
            return None;
        }
        Some(number)
    }

    /// The first number whose key is at most `bound`, in steps as many as the count has bits.
    pub fn first_within(&self, bound: u64) -> Option<u32>
        ensures { result ≡ position (is_within bound) self.now }
    {
        first_leaf_within(&self.tree, self.leaves, bound)
    }
}
