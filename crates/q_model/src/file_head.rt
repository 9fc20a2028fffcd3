//! What is read from the head of a queue file, and a batch of its recipients.
ghost use Rattle.std.specs.Prelude.{◌≡◌, ◌<◌, ◌++◌, [], ◌∷◌, length, slice_get, Some, IfOk};

use crate::{Address, Moment, NoMemory};
use std::alloc::Global;
use std::marker::Model;

/// The sender (`None` is the null sender) and the arrival of a message. A contract sees it as
/// the record of the two.
#[derive(Clone, Copy, Debug, PartialEq, Eq)]
pub struct Head {
    pub sender: Option<Address>,
    pub arrival: Moment,
}

impl Model for Head {
    ghost use Rattle.q_model.specs.Values.{Head as HeadValue};

    ghost Value = { HeadValue };

    ghost view = { λ h. record { sender = h.sender; arrival = h.arrival } };

    ghost inverse = { λ v. record { sender = v.sender; arrival = v.arrival } };
}

/// The head of a queue file: its numbers, and the offsets of the first recipient's record and of
/// the content in bytes.
#[derive(Clone, Copy, Debug, PartialEq, Eq)]
pub struct FileHead {
    pub version: u32,
    pub head: Head,
    pub recipients: u32,
    pub marked: u32,
    pub first_at: u64,
    pub content_at: u64,
    pub content_len: u32,
}

impl Model for FileHead {
    ghost use Rattle.q_model.specs.Values.{FileHead as FileHeadValue};

    ghost Value = { FileHeadValue };

    ghost view = { λ f. record {
      version = f.version;
      head = f.head;
      recipients = f.recipients;
      marked = f.marked;
      first_at = f.first_at;
      content_at = f.content_at;
      content_len = f.content_len;
    } };

    ghost inverse = { λ v. record {
      version = v.version;
      head = v.head;
      recipients = v.recipients;
      marked = v.marked;
      first_at = v.first_at;
      content_at = v.content_at;
      content_len = v.content_len;
    } };
}

/// A place in the recipients of a queue file: a position, and the offset of its record.
#[derive(Clone, Copy, Debug, PartialEq, Eq)]
pub struct Cursor {
    pub position: u32,
    pub at: u64,
}

/// A recipient that was read, and the offset of its mark byte. A contract sees it as the record
/// of the three.
#[derive(Clone, Copy, Debug, PartialEq, Eq)]
pub struct Taken {
    pub position: u32,
    pub mark_at: u64,
    pub address: Address,
}

impl Model for Taken {
    ghost use Rattle.q_model.specs.Values.{Taken as TakenValue};

    ghost Value = { TakenValue };

    ghost view = { λ t. record { position = t.position; mark_at = t.mark_at; address = t.address } };

    ghost inverse = { λ v. record { position = v.position; mark_at = v.mark_at; address = v.address } };
}

/// Recipients that were read, with reserved room. A contract sees it as the list of them and the
/// room.
#[derive(Debug, Drop)]
pub struct Batch {
    items: Vec<Taken>,
    room: u32,
}

impl Model for Batch {
    ghost use Rattle.std.specs.Prelude.{◌≤◌, vec_capacity, vec_len};
    ghost use Rattle.q_model.specs.Values.{Batch as BatchValue};

    ghost Value = { BatchValue };

    ghost view = { λ b. record { items = b.items.items; room = b.room } };

    ghost invariant = { λ b. (b.room ≤ vec_capacity b.items) × (vec_len b.items ≤ b.room) };
}

impl Batch {
    /// The empty batch, with this room.
    pub fn new(alloc: Global, room: u32) -> Result<Batch, NoMemory>
        ensures { IfOk result (λ b. (b.items ≡ []) × (b.room ≡ room)) }
    {
        let items = Vec::with_capacity(alloc, room as usize)?;
        Ok(Batch { items, room })
    }

    pub fn room(&self) -> u32
        ensures { result ≡ self.now.room }
    {
        self.room
    }

    /// Empties the batch and keeps the room.
    pub fn clear(&mut self)
        ensures items { self.new.items ≡ [] }
        ensures room { self.new.room ≡ self.old.room }
    {
        self.items.clear();
    }

    pub fn len(&self) -> usize
        ensures { result ≡ length self.now.items }
    {
        self.items.len()
    }

    pub fn get(&self, i: usize) -> Taken
        requires { i < length self.now.items }
        ensures { slice_get self.now.items i ≡ Some result }
    {
        self.items[i]
    }

    /// Adds a recipient at the end, in the room that is there.
    pub fn push(&mut self, taken: Taken)
        requires { length self.old.items < self.old.room }
        ensures items { self.new.items ≡ self.old.items ++ taken ∷ [] }
        ensures room { self.new.room ≡ self.old.room }
    {
        let _ = self.items.push(taken);
    }
}
