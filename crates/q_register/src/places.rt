//! Places in the order of coming, and the index and the ranks that are of them.
ghost use Rattle.std.specs.Prelude.{◌≡◌, ◌<◌, ◌≤◌, ◌+◌, ◌++◌, ◌^◌, [], ◌∷◌, filter, find, length, map, None, slice_get, Some, vec_capacity};
ghost use Rattle.std.specs.HashMap.{spare};
ghost use Rattle.indexmap.specs.IndexMap.{index_map_len};
ghost use Rattle.std.specs.Option.{IfNone, OnSome, option_copied};
ghost use Rattle.q_register.specs.Members.{changed, first_ranked, has_key, lacks_key, no_rank, ranks_within};
ghost use Rattle.q_register.specs.Places.{IsPlaced, members_of, standing};

use crate::index::{enter, seek};
use crate::member::Member;
use indexmap::IndexMap;
use q_least::Least;
use std::hash::Hash;

/// Adds a member behind all others.
pub(crate) fn append<K: Eq + Hash + Copy + Drop, T: Copy>(
    places: &mut Vec<Option<Member<K, T>>>,
    index: &mut IndexMap<K, u32>,
    ranks: &mut Least,
    member: Member<K, T>,
)
    requires absent { find (has_key K.eq member.key) (members_of places.old.items) ≡ None }
    requires room { length places.old.items < vec_capacity places.old }
    requires few { length places.old.items < 2 ^ 32 }
    requires ranks { length places.old.items < length ranks.old }
    requires spare { 0 < spare index.old }
    requires placed { IsPlaced K.eq places.old.items index.old ranks.old }
    ensures placed { IsPlaced K.eq places.new.items index.new ranks.new }
    ensures members { members_of places.new.items ≡ members_of places.old.items ++ member ∷ [] }
    ensures len { length places.new.items ≡ length places.old.items + 1 }
    ensures capacity { vec_capacity places.new ≡ vec_capacity places.old }
    ensures index { index_map_len index.new ≤ index_map_len index.old + 1 }
    ensures index_room { index_map_len index.old + spare index.old
        ≤ index_map_len index.new + spare index.new }
    ensures ranks { length ranks.new ≡ length ranks.old }
{
    let place = places.len() as u32;
    enter(index, member.key, place);
    ranks.set(place, member.rank);
    places.push_reserved(Some(member));
}

/// Takes the member under a key out.
pub(crate) fn take_out<K: Eq + Hash + Copy, T: Copy>(
    places: &mut Vec<Option<Member<K, T>>>,
    index: &IndexMap<K, u32>,
    ranks: &mut Least,
    key: &K,
) -> Option<Member<K, T>>
    requires { IsPlaced K.eq places.old.items index.now ranks.old }
    ensures placed { IsPlaced K.eq places.new.items index.now ranks.new }
    ensures taken { result ≡ find (has_key K.eq key.now) (members_of places.old.items) }
    ensures members { members_of places.new.items
        ≡ filter (lacks_key K.eq key.now) (members_of places.old.items) }
    ensures fewer { OnSome result (length (members_of places.new.items) + 1
        ≡ length (members_of places.old.items)) }
    ensures same { IfNone result (places.new.items ≡ places.old.items) }
    ensures len { length places.new.items ≡ length places.old.items }
    ensures capacity { vec_capacity places.new ≡ vec_capacity places.old }
    ensures ranks { length ranks.new ≡ length ranks.old }
{
    let found = seek(places, index, key)?;
    places[found.place as usize] = None;
    ranks.set(found.place, Least::NONE);
    Some(found.member)
}

/// Puts another value and rank under a key.
pub(crate) fn put<K: Eq + Hash + Copy, T: Copy>(
    places: &mut Vec<Option<Member<K, T>>>,
    index: &IndexMap<K, u32>,
    ranks: &mut Least,
    key: &K,
    value: T,
    rank: u64,
)
    requires { IsPlaced K.eq places.old.items index.now ranks.old }
    ensures placed { IsPlaced K.eq places.new.items index.now ranks.new }
    ensures members { members_of places.new.items
        ≡ map (changed K.eq key.now value rank) (members_of places.old.items) }
    ensures len { length places.new.items ≡ length places.old.items }
    ensures capacity { vec_capacity places.new ≡ vec_capacity places.old }
    ensures ranks { length ranks.new ≡ length ranks.old }
{
    let Some(found) = seek(places, index, key) else {
        return;
    };
    places[found.place as usize] = Some(found.member.changed_to(value, rank));
    ranks.set(found.place, rank);
}

/// What stands at a place, if the place is there.
fn member_at<K, T>(places: &[Option<Member<K, T>>], place: u32) -> Option<&Member<K, T>>
    ensures { option_copied result ≡ standing (slice_get places.now place) }
{
    match places.get(place as usize) {
        Some(Some(member)) => Some(member),
        _ => None,
    }
}

/// The member under a key.
pub(crate) fn find_in<'a, K: Eq + Hash + Copy, T: Copy>(
    places: &'a Vec<Option<Member<K, T>>>,
    index: &IndexMap<K, u32>,
    ranks: &Least,
    key: &K,
) -> Option<&'a Member<K, T>>
    requires { IsPlaced K.eq places.now.items index.now ranks.now }
    ensures { option_copied result ≡ find (has_key K.eq key.now) (members_of places.now.items) }
{
    match seek(places, index, key) {
        Some(found) => member_at(places, found.place),
        None => None,
    }
}

/// The first member of those with the least rank.
pub(crate) fn first_in<'a, K: Eq + Hash, T>(
    places: &'a Vec<Option<Member<K, T>>>,
    index: &IndexMap<K, u32>,
    ranks: &Least,
) -> Option<&'a Member<K, T>>
    requires { IsPlaced K.eq places.now.items index.now ranks.now }
    ensures { option_copied result ≡ first_ranked (members_of places.now.items) }
{
    match ranks.first() {
        Some(place) => member_at(places, place),
        None => None,
    }
}

/// The first member whose rank is at most the bound.
pub(crate) fn first_within_in<'a, K: Eq + Hash, T>(
    places: &'a Vec<Option<Member<K, T>>>,
    index: &IndexMap<K, u32>,
    ranks: &Least,
    bound: u64,
) -> Option<&'a Member<K, T>>
    requires placed { IsPlaced K.eq places.now.items index.now ranks.now }
    requires ranked { bound < no_rank }
    ensures { option_copied result ≡ find (ranks_within bound) (members_of places.now.items) }
{
    let place = ranks.first_within(bound)?;
    member_at(places, place)
}
