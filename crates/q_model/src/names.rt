//! A list of names with room for 64.
ghost use Rattle.std.specs.Prelude.{◌≡◌, ◌<◌, ◌≤◌, ◌++◌, [], ◌∷◌, length, slice_get, Some, IfOk, OnOk, OnErr};

use crate::{Name, NoMemory};
use std::alloc::Global;
use std::marker::Model;

/// A list of names. A contract sees it as the list, and each name as its bytes.
#[derive(Debug, Drop)]
pub struct Names {
    items: Vec<Name>,
}

impl Model for Names {
    ghost use Rattle.std.specs.Prelude.{List, ℕ, ◌≤◌, vec_capacity};

    ghost Value = { List (List ℕ) };

    ghost view = { λ n. n.items.items };

    // room for 64
    ghost invariant = { λ n. 64 ≤ vec_capacity n.items };
}

impl Names {
    /// How many names fit without more memory.
    pub const ROOM: usize = 64;

    /// The empty list, with room for 64.
    pub fn new(alloc: Global) -> Result<Names, NoMemory>
        ensures { IfOk result (λ n. n ≡ []) }
    {
        let items = Vec::with_capacity(alloc, Names::ROOM)?;
        Ok(Names { items })
    }

    pub fn len(&self) -> usize
        ensures { result ≡ length self.now }
    {
        self.items.len()
    }

    pub fn get(&self, i: usize) -> Name
        requires { i < length self.now }
        ensures { slice_get self.now i ≡ Some result }
    {
        self.items[i]
    }

    pub fn as_slice(&self) -> &[Name]
        ensures { result.now ≡ self.now }
    {
        self.items.as_slice()
    }

    /// Empties the list and keeps the room.
    pub fn clear(&mut self)
        ensures { self.new ≡ [] }
    {
        self.items.clear();
    }

    /// Adds a name. While fewer than 64 are in it, it takes no memory.
    pub fn push(&mut self, name: Name) -> Result<(), NoMemory>
        ensures ok { OnOk result (self.new ≡ self.old ++ name ∷ []) }
        ensures err { OnErr result (self.new ≡ self.old) }
        ensures room { OnErr result (64 ≤ length self.old) }
    {
        self.items.push(name)?;
        Ok(())
    }
}
