//! Lists that contracts see as lists.
ghost use Rattle.std.specs.Prelude.{◌≡◌, ◌<◌, ◌++◌, [], ◌∷◌, length, slice_get, Some, OnOk, OnErr};

use crate::{Failure, Hop, NoMemory, Note, Outcome, Receiver};
use std::alloc::Global;
use std::marker::Model;

/// A list over a `Vec`. A contract sees it as the list of its items, and says nothing of its
/// room.
#[derive(Debug, Drop)]
pub struct Sequence<T> {
    items: Vec<T>,
}

impl<T> Model for Sequence<T> {
    ghost use Rattle.std.specs.Prelude.{List};

    ghost Value = { List T };

    ghost view = { λ s. s.items.items };
}

/// The recipients of a message.
pub type Addresses = Sequence<Receiver>;

pub type Bytes = Sequence<u8>;
/// Numbers of domains: each with the age of a message in seconds, and a count.
pub type Counted = Sequence<(Hop, u64, u64)>;

pub type Notes = Sequence<Note>;

pub type Outcomes = Sequence<Outcome>;
/// Positions of recipients in their message, counted from 0.
pub type Positions = Sequence<u32>;

pub type Records = Sequence<Failure>;

impl<T: Copy + Drop> Sequence<T> {
    /// The empty list, which takes no memory.
    pub fn new(alloc: Global) -> Sequence<T>
        ensures { result ≡ [] }
    {
        Sequence {
            items: Vec::new(alloc),
        }
    }

    /// The items of a `Vec`, which keep their memory.
    pub fn from_vec(items: Vec<T>) -> Sequence<T>
        ensures { result ≡ items.items }
    {
        Sequence { items }
    }

    /// The items as a `Vec`, which keep their memory.
    pub fn into_vec(self) -> Vec<T>
        ensures { result.items ≡ self }
    {
        self.items
    }

    /// Adds an item at the end.
    pub fn push(&mut self, item: T) -> Result<(), NoMemory>
        ensures ok { OnOk result (self.new ≡ self.old ++ item ∷ []) }
        ensures err { OnErr result (self.new ≡ self.old) }
    {
        self.items.push(item)?;
        Ok(())
    }

    pub fn len(&self) -> usize
        ensures { result ≡ length self.now }
    {
        self.items.len()
    }

    pub fn get(&self, i: usize) -> T
        requires { i < length self.now }
        ensures { slice_get self.now i ≡ Some result }
    {
        self.items[i]
    }

    pub fn as_slice(&self) -> &[T]
        ensures { result.now ≡ self.now }
    {
        self.items.as_slice()
    }
}
