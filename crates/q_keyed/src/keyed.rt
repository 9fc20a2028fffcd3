//! The items.
ghost use Rattle.std.specs.Prelude.{◌≡◌, ◌<◌, ◌≤◌, ◌-◌, ◌++◌, ◌^◌, [], ◌∷◌, IfOk, IfSome, find, length, map, None, true};
ghost use Rattle.std.specs.Option.{is_some, option_copied};
ghost use Rattle.q_keyed.specs.Numbered.{first_such, has_number, inserted_at, item_at, moved_last, put_at, without_number};

use crate::finding::bucket;
use crate::key::HasKey;
use crate::slots::{
    FREE, USED, fresh_items, fresh_order, item_at, make_place, put_item, take_item,
};
use q_chains::Chains;
use std::alloc::{AllocError, Global};
use std::marker::Model;

/// Items in an order. A contract sees them as a list of items with their numbers.
#[derive(Debug, Drop)]
pub struct Keyed<T: HasKey> {
    /// The items by number, as far as numbers were ever used.
    pub(crate) items: Vec<Option<T>>,
    /// Two lists: the numbers of the items in their order, and the free numbers.
    pub(crate) order: Chains,
    /// The numbers in each bucket of keys.
    pub(crate) by_key: Chains,
    pub(crate) live: u32,
    /// How many numbers there are, and buckets.
    pub(crate) room: u32,
}

impl<T: HasKey> Model for Keyed<T> {
    ghost use Rattle.std.specs.Prelude.{◌≤◌, [], get_or, vec_capacity};
    ghost use Rattle.q_keyed.specs.Numbered.{Items, items_code};
    ghost use Rattle.q_keyed.specs.Slots.{items_of};
    ghost use Rattle.q_keyed.specs.Sound.{IsSound};

    ghost Value = { Items T };

    ghost coded = { items_code T.code };

    ghost view = { λ a. record {
      items = items_of a.items.items (get_or a.order.lists 0 []);
      room = a.room;
    } };

    ghost invariant = { λ a. IsSound T.eq T.key_of T.hash a.items.items a.order a.by_key a.live a.room
        × (a.room ≤ vec_capacity a.items) };
}

impl<T: HasKey + Drop> Keyed<T> {
    /// No item, and room for so many. For each of them it takes 24 bytes, in which numbers and
    /// buckets are chained, and those of the item, which aren't written to before as many items are
    /// there at a time. An error says that memory is wanting.
    pub fn new(alloc: Global, room: u32) -> Result<Keyed<T>, AllocError>
        requires some { 1 ≤ room }
        requires few { room < 2 ^ 30 }
        ensures { IfOk result (λ made. made ≡ record { items = []; room = room }) }
    {
        let items = fresh_items(alloc, room)?;
        let order = fresh_order(alloc, room)?;
        let by_key = Chains::new(alloc, room, room)?;
        Ok(Keyed {
            items,
            order,
            by_key,
            live: 0,
            room,
        })
    }

    /// How many items there are.
    pub fn len(&self) -> usize
        ensures { result ≡ length self.now.items }
    {
        self.live as usize
    }

    /// How many items more have room.
    pub fn spare(&self) -> u32
        ensures { result ≡ self.now.room - length self.now.items }
    {
        self.room - self.live
    }

    /// The item of a number.
    pub fn get(&self, number: u32) -> Option<&T>
        ensures { option_copied result ≡ item_at number self.now.items }
    {
        item_at(&self.items, number)
    }

    /// Adds an item behind all others, and gives the number that it has from now on. Numbers are
    /// those below the room, so a caller may keep more of an item by its number.
    pub fn push(&mut self, item: T) -> u32
        requires room { length self.old.items < self.old.room }
        requires absent { first_such (λ t. T.eq (T.key_of t) (T.key_of item)) self.old.items ≡ None }
        ensures items { self.new ≡ record self.old {
          items = self.old.items ++ record { number = result; item = item } ∷ [];
        } }
        ensures fresh { find (has_number result) self.old.items ≡ None }
        ensures below { result < self.old.room }
    {
        let Some(number) = self.order.last(FREE) else {
            unreachable!()
        };
        let key = bucket(item.hash(), self.room);
        self.order.remove(number);
        self.order.push(USED, number);
        self.by_key.push(key, number);
        make_place(&mut self.items, number, self.room);
        put_item(&mut self.items, number, item);
        self.live += 1;
        number
    }

    /// Adds an item right before the one of a number, and gives its own number.
    pub fn insert_before(&mut self, item: T, at: u32) -> u32
        requires room { length self.old.items < self.old.room }
        requires absent { first_such (λ t. T.eq (T.key_of t) (T.key_of item)) self.old.items ≡ None }
        requires there { is_some (item_at at self.old.items) ≡ true }
        ensures items { self.new ≡ record self.old
            { items = inserted_at at (record { number = result; item = item }) self.old.items } }
        ensures fresh { find (has_number result) self.old.items ≡ None }
        ensures below { result < self.old.room }
    {
        let Some(number) = self.order.last(FREE) else {
            unreachable!()
        };
        let key = bucket(item.hash(), self.room);
        self.order.remove(number);
        self.order.insert_before(number, at);
        self.by_key.push(key, number);
        make_place(&mut self.items, number, self.room);
        put_item(&mut self.items, number, item);
        self.live += 1;
        number
    }

    /// Puts an item of the same key in the place of the one under a number.
    pub fn put(&mut self, number: u32, item: T)
        requires { IfSome (item_at number self.old.items) (λ t. T.key_of t ≡ T.key_of item) }
        ensures { self.new ≡ record self.old
            { items = map (put_at number item) self.old.items } }
    {
        self.order.stand_once();
        if item_at(&self.items, number).is_some() {
            put_item(&mut self.items, number, item);
        }
    }

    /// Moves the item of a number behind all others.
    pub fn move_last(&mut self, number: u32)
        ensures { self.new ≡ record self.old { items = moved_last number self.old.items } }
    {
        self.order.stand_once();
        if item_at(&self.items, number).is_some() {
            self.order.remove(number);
            self.order.push(USED, number);
        }
    }

    /// Takes the item of a number out.
    pub fn remove(&mut self, number: u32) -> Option<T>
        ensures taken { result ≡ item_at number self.old.items }
        ensures items { self.new ≡ record self.old
            { items = without_number number self.old.items } }
    {
        self.order.stand_once();
        if item_at(&self.items, number).is_none() {
            return None;
        }
        self.order.remove(number);
        self.order.push(FREE, number);
        self.by_key.remove(number);
        self.live -= 1;
        take_item(&mut self.items, number)
    }
}
