//! The pool.
ghost use Rattle.std.specs.Prelude.{◌≡◌, ◌<◌, ◌≤◌, ◌++◌, ◌^◌, [], ◌∷◌, IfOk, filter, find, length, None, not};
ghost use Rattle.std.specs.Option.{option_copied};
ghost use Rattle.q_pool.specs.Kept.{is_of};
ghost use Rattle.q_pool.specs.Pooled.{AreApart};
ghost use Rattle.q_pool.specs.Ranks.{values_of};

use crate::kept::Kept;
use crate::slot::Slot;
use q_model::Id;
use q_register::{Member, Register};
use std::alloc::{AllocError, Global};
use std::marker::Model;

/// The messages in memory. A contract sees them as a list.
#[derive(Debug, Drop)]
pub struct Pool {
    pub(crate) register: Register<Id, Kept>,
    pub(crate) sync_limit: u32,
    pub(crate) minimum: u32,
}

impl Model for Pool {
    ghost use Rattle.std.specs.Prelude.{map};
    ghost use Rattle.q_pool.specs.Pooled.{Pooled};
    ghost use Rattle.q_pool.specs.Ranks.{AreRanked, value_of};

    ghost Value = { Pooled };

    ghost view = { λ a. record {
      items = map value_of a.register.items;
      room = a.register.room;
      sync_limit = a.sync_limit;
      minimum = a.minimum;
    } };

    ghost invariant = { λ a. AreRanked a.sync_limit a.minimum a.register.items };
}

impl Pool {
    /// No message, and room for so many. One wants a sync at `sync_limit` marks, and reads at least
    /// `minimum` recipients at once.
    pub fn new(alloc: Global, room: u32, sync_limit: u32, minimum: u32) -> Result<Pool, AllocError>
        requires some { 1 ≤ room }
        requires few { room < 2 ^ 31 }
        ensures { IfOk result (λ made. made ≡ record
            { items = []; room = room; sync_limit = sync_limit; minimum = minimum }) }
    {
        let register = Register::new(alloc, room)?;
        Ok(Pool {
            register,
            sync_limit,
            minimum,
        })
    }

    /// No two messages have one id, and there are no more than have room, whatever was called: this
    /// does nothing, and is there for callers whose proofs want to know it.
    pub fn stand_apart(&self)
        ensures apart { AreApart self.now.items }
        ensures within { length self.now.items ≤ self.now.room }
    {
        self.register.stand_apart();
    }

    /// How many there are.
    pub fn len(&self) -> usize
        ensures { result ≡ length self.now.items }
    {
        self.register.len()
    }

    /// The message of an id.
    pub fn get(&self, id: Id) -> Option<&Kept>
        ensures { option_copied result ≡ find (is_of id) self.now.items }
    {
        match self.register.get(&id) {
            Some(member) => Some(&member.value),
            None => None,
        }
    }

    /// The messages as they stand in memory, with places between them that are empty.
    pub fn places(&self) -> &[Option<Member<Id, Kept>>]
        ensures { values_of result.now ≡ self.now.items }
    {
        self.register.places()
    }

    /// Adds a message behind all others, without a row.
    pub fn push(&mut self, slot: Slot)
        requires absent { find (is_of slot.id) self.old.items ≡ None }
        requires room { length self.old.items < self.old.room }
        ensures { self.new ≡ record self.old {
          items = self.old.items
              ++ record { slot = slot; waiting = 0; flying = 0; unsettled = 0 } ∷ [];
        } }
    {
        let value = Kept {
            slot,
            waiting: 0,
            flying: 0,
            unsettled: 0,
        };
        self.register.push(Member {
            key: slot.id,
            value,
            rank: value.rank(self.sync_limit, self.minimum),
        });
    }

    /// Takes the message of an id out.
    pub fn remove(&mut self, id: Id)
        ensures { self.new ≡ record self.old
            { items = filter (λ k. not (is_of id k)) self.old.items } }
    {
        let _ = self.register.remove(&id);
    }
}
