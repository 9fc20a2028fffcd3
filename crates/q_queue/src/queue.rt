//! The queue.
ghost use Rattle.std.specs.Option.{option_copied};
ghost use Rattle.std.specs.Prelude.{◌≡◌, ◌<◌, ◌≤◌, ◌-◌, ◌++◌, ◌^◌, ◌==◌, [], ◌∷◌, drop, IfOk, length, slice_get, slice_set};

use std::alloc::{AllocError, Global};
use std::collections::VecDeque;
use std::marker::Model;

/// Items in the order in which they came. A contract sees them as a list, with the room that there
/// is.
#[derive(Debug, Drop)]
pub struct Queue<T> {
    items: VecDeque<T>,
    room: u32,
}

impl<T> Model for Queue<T> {
    ghost use Rattle.q_queue.specs.Queued.{Queued, queued_code};
    ghost use Rattle.q_queue.specs.Sound.{IsSound};
    ghost use Rattle.std.specs.VecDeque.{deque_capacity, deque_len};

    ghost Value = { Queued T };

    ghost coded = { queued_code T.code };

    ghost view = { λ a. record { items = a.items.items; room = a.room } };

    ghost invariant = { λ a. IsSound (deque_len a.items) a.room (deque_capacity a.items) };
}

impl<T> Queue<T> {
    /// No item, and room for so many. An error says that memory is wanting.
    pub fn new(alloc: Global, room: u32) -> Result<Queue<T>, AllocError>
        requires { room < 2 ^ 30 }
        ensures { IfOk result (λ made. made ≡ record { items = []; room = room }) }
    {
        let items = VecDeque::with_capacity(alloc, room as usize)?;
        Ok(Queue { items, room })
    }

    /// There are no more items than have room, whatever was called: this does nothing, and is there
    /// for callers whose proofs want to know it.
    pub fn stand_within(&self)
        ensures within { length self.now.items ≤ self.now.room }
        ensures few { self.now.room < 2 ^ 30 }
    {
        let _room = self.room;
    }

    /// How many items there are.
    pub fn len(&self) -> usize
        ensures { result ≡ length self.now.items }
    {
        self.items.len()
    }

    /// How many more have room.
    pub fn spare(&self) -> u32
        ensures { result ≡ self.now.room - length self.now.items }
    {
        self.room - self.items.len() as u32
    }

    pub fn is_empty(&self) -> bool
        ensures { result ≡ (length self.now.items == 0) }
    {
        self.items.is_empty()
    }

    /// The item that came first.
    pub fn first(&self) -> Option<&T>
        ensures { option_copied result ≡ slice_get self.now.items 0 }
    {
        self.items.front()
    }

    /// Adds an item behind all others.
    pub fn push(&mut self, item: T)
        requires { length self.old.items < self.old.room }
        ensures { self.new ≡ record self.old { items = self.old.items ++ item ∷ [] } }
    {
        self.items.push_back_reserved(item);
    }

    /// Takes the item that came first out.
    pub fn pop(&mut self) -> Option<T>
        ensures taken { result ≡ slice_get self.old.items 0 }
        ensures items { self.new ≡ record self.old { items = drop 1 self.old.items } }
    {
        self.items.pop_front()
    }
}

impl<T: Drop> Queue<T> {
    /// Puts an item in the place of the one that came first, and does nothing where there is none.
    pub fn set_first(&mut self, item: T)
        ensures { self.new ≡ record self.old { items = slice_set self.old.items 0 item } }
    {
        if let Some(first) = self.items.front_mut() {
            *first = item;
        }
    }
}
