//! Which item has a key, and which is first or next.
ghost use Rattle.std.specs.Prelude.{◌≡◌, ◌≤◌, ◌<◌, ◌%◌, ◌^◌, find, IfSome, length, true};
ghost use Rattle.q_chains.specs.Lists.{stands};
ghost use Rattle.q_keyed.specs.Numbered.{AreApart, AreKeysApart, first_number, first_such, next_number};
ghost use Rattle.q_chains.specs.Slots.{passes};
ghost use Rattle.q_chains.specs.Onward.{from_on};

use crate::key::HasKey;
use crate::keyed::Keyed;
use crate::slots::{USED, item_at};
use q_chains::Chains;

/// The bucket of a hash, of so many.
pub(crate) fn bucket(hash: u32, buckets: u32) -> u32
    requires { 1 ≤ buckets }
    ensures is { result ≡ hash % buckets }
    ensures below { result < buckets }
{
    hash % buckets
}

/// Whether the item of the number has the key.
fn is_under<T: HasKey>(items: &Vec<Option<T>>, number: u32, key: &T::Key) -> bool
    ensures { result ≡ passes (λ t. T.eq (T.key_of t) key.now) items.now.items number }
{
    match item_at(items, number) {
        Some(item) => item.has_key(key),
        None => false,
    }
}

/// The first number whose item has the key, from this one on in its list.
fn find_from<T: HasKey>(
    items: &Vec<Option<T>>,
    lists: &Chains,
    from: Option<u32>,
    key: &T::Key,
) -> Option<u32>
    requires { IfSome from (λ number. stands number lists.now.lists ≡ true) }
    ensures { result ≡ find (passes (λ t. T.eq (T.key_of t) key.now) items.now.items)
        (from_on from lists.now.lists) }
{
    let mut at = from;
    while let Some(number) = at {
        if is_under(items, number, key) {
            return Some(number);
        }
        at = lists.next(number);
    }
    None
}

impl<T: HasKey> Keyed<T> {
    /// No two items have one number or one key, and there are no more than have room, whatever was
    /// called: this does nothing, and is there for callers whose proofs want to know it.
    pub fn stand_apart(&self)
        ensures apart { AreApart self.now.items }
        ensures keys { AreKeysApart T.eq T.key_of self.now.items }
        ensures within { length self.now.items ≤ self.now.room }
        ensures few { self.now.room < 2 ^ 30 }
    {
        self.order.stand_once();
    }

    /// The number of the item under a key.
    pub fn find(&self, key: &T::Key) -> Option<u32>
        ensures is { result ≡ first_such (λ t. T.eq (T.key_of t) key.now) self.now.items }
        ensures apart { AreApart self.now.items }
        ensures keys { AreKeysApart T.eq T.key_of self.now.items }
        ensures within { length self.now.items ≤ self.now.room }
    {
        self.stand_apart();
        let from = self.by_key.first(bucket(T::hash_of(key), self.room));
        find_from(&self.items, &self.by_key, from, key)
    }

    /// The number of the first item.
    pub fn first(&self) -> Option<u32>
        ensures { result ≡ first_number self.now.items }
    {
        self.order.first(USED)
    }

    /// The number of the item right behind the one of this number.
    pub fn next(&self, number: u32) -> Option<u32>
        ensures { result ≡ next_number number self.now.items }
    {
        let _item = item_at(&self.items, number)?;
        self.order.next(number)
    }
}
