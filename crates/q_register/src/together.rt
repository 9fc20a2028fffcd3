//! Members move together, where places between them are empty.
ghost use Rattle.std.specs.Prelude.{◌≡◌, ◌<◌, ◌≤◌, ◌+◌, ◌++◌, ◌^◌, [], ◌∷◌, length, slice_get, Some, vec_capacity, vec_len};
ghost use Rattle.std.specs.HashMap.{spare};
ghost use Rattle.indexmap.specs.IndexMap.{index_map_len};
ghost use Rattle.q_register.specs.Members.{AreApart};
ghost use Rattle.q_register.specs.Places.{IsPlaced, members_of};

use crate::member::Member;
use crate::places::append;
use indexmap::IndexMap;
use q_least::Least;
use std::hash::Hash;

/// Adds the member of a place.
fn keep<K: Copy, T: Copy>(kept: &mut Vec<Member<K, T>>, place: Option<Member<K, T>>)
    requires { vec_len kept.old + length (members_of (place ∷ [])) ≤ vec_capacity kept.old }
    ensures items { kept.new.items ≡ kept.old.items ++ members_of (place ∷ []) }
    ensures capacity { vec_capacity kept.new ≡ vec_capacity kept.old }
{
    if let Some(member) = place {
        kept.push_reserved(member);
    }
}

fn place_at<K: Copy, T: Copy>(places: &[Option<Member<K, T>>], i: usize) -> Option<Member<K, T>>
    requires { i < length places.now }
    ensures { slice_get places.now i ≡ Some result }
{
    places[i]
}

fn kept_at<K: Copy, T: Copy>(kept: &[Member<K, T>], i: usize) -> Member<K, T>
    requires { i < length kept.now }
    ensures { slice_get kept.now i ≡ Some result }
{
    kept[i]
}

/// Keeps the members of all places.
fn keep_all<K: Copy, T: Copy>(kept: &mut Vec<Member<K, T>>, places: &[Option<Member<K, T>>])
    requires empty { kept.old.items ≡ [] }
    requires room { length (members_of places.now) ≤ vec_capacity kept.old }
    ensures items { kept.new.items ≡ members_of places.now }
    ensures capacity { vec_capacity kept.new ≡ vec_capacity kept.old }
{
    for i in 0..places.len() {
        keep(kept, place_at(places, i));
    }
}

/// Adds these members again.
fn put_back<K: Eq + Hash + Copy + Drop, T: Copy>(
    places: &mut Vec<Option<Member<K, T>>>,
    index: &mut IndexMap<K, u32>,
    ranks: &mut Least,
    kept: &[Member<K, T>],
)
    requires empty { places.old.items ≡ [] }
    requires placed { IsPlaced K.eq places.old.items index.old ranks.old }
    requires apart { AreApart K.eq kept.now }
    requires room { length kept.now ≤ vec_capacity places.old }
    requires few { length kept.now < 2 ^ 32 }
    requires ranks { length kept.now ≤ length ranks.old }
    requires index { index_map_len index.old + length kept.now ≤ spare index.old }
    ensures placed { IsPlaced K.eq places.new.items index.new ranks.new }
    ensures members { members_of places.new.items ≡ kept.now }
    ensures len { length places.new.items ≡ length kept.now }
    ensures capacity { vec_capacity places.new ≡ vec_capacity places.old }
    ensures ranks { length ranks.new ≡ length ranks.old }
    ensures index { index_map_len index.new ≤ index_map_len index.old + length kept.now }
    ensures index_room { index_map_len index.old + spare index.old
        ≤ index_map_len index.new + spare index.new }
{
    for i in 0..kept.len() {
        append(places, index, ranks, kept_at(kept, i));
    }
}

/// Moves the members together.
fn move_together<K: Eq + Hash + Copy + Drop, T: Copy>(
    places: &mut Vec<Option<Member<K, T>>>,
    index: &mut IndexMap<K, u32>,
    ranks: &mut Least,
    kept: &mut Vec<Member<K, T>>,
)
    requires placed { IsPlaced K.eq places.old.items index.old ranks.old }
    requires empty { kept.old.items ≡ [] }
    requires room { length (members_of places.old.items) ≤ vec_capacity kept.old }
    requires capacity { length places.old.items ≤ vec_capacity places.old }
    requires few { length places.old.items < 2 ^ 32 }
    requires index { length places.old.items ≤ index_map_len index.old + spare index.old }
    ensures placed { IsPlaced K.eq places.new.items index.new ranks.new }
    ensures members { members_of places.new.items ≡ members_of places.old.items }
    ensures len { length places.new.items ≡ length (members_of places.old.items) }
    ensures capacity { vec_capacity places.new ≡ vec_capacity places.old }
    ensures ranks { length ranks.new ≡ length ranks.old }
    ensures index { index_map_len index.new ≤ length places.new.items }
    ensures index_room { index_map_len index.old + spare index.old
        ≤ index_map_len index.new + spare index.new }
    ensures kept { kept.new.items ≡ [] }
    ensures spare { vec_capacity kept.new ≡ vec_capacity kept.old }
{
    keep_all(kept, places);
    places.clear();
    index.clear();
    ranks.clear();
    put_back(places, index, ranks, kept);
    kept.clear();
}

/// Sees to it that one of so many places is behind the others.
pub(crate) fn make_place<K: Eq + Hash + Copy + Drop, T: Copy>(
    places: &mut Vec<Option<Member<K, T>>>,
    index: &mut IndexMap<K, u32>,
    ranks: &mut Least,
    kept: &mut Vec<Member<K, T>>,
    count: usize,
)
    requires placed { IsPlaced K.eq places.old.items index.old ranks.old }
    requires empty { kept.old.items ≡ [] }
    requires room { length (members_of places.old.items) ≤ vec_capacity kept.old }
    requires live { length (members_of places.old.items) < count }
    requires within { length places.old.items ≤ count }
    requires capacity { count ≤ vec_capacity places.old }
    requires few { count < 2 ^ 32 }
    requires fewer { index_map_len index.old ≤ length places.old.items }
    requires index { count ≤ index_map_len index.old + spare index.old }
    ensures placed { IsPlaced K.eq places.new.items index.new ranks.new }
    ensures members { members_of places.new.items ≡ members_of places.old.items }
    ensures len { length places.new.items < count }
    ensures capacity { vec_capacity places.new ≡ vec_capacity places.old }
    ensures ranks { length ranks.new ≡ length ranks.old }
    ensures fewer { index_map_len index.new ≤ length places.new.items }
    ensures index { count ≤ index_map_len index.new + spare index.new }
    ensures kept { kept.new.items ≡ [] }
    ensures spare { vec_capacity kept.new ≡ vec_capacity kept.old }
{
    if places.len() >= count {
        move_together(places, index, ranks, kept);
    }
}
