//! Which place a member has.
ghost use Rattle.std.specs.Prelude.{◌≡◌, ◌<◌, ◌≤◌, ◌+◌, IfSome, slice_get, Some, vec_len};
ghost use Rattle.std.specs.HashMap.{Updates, get, spare};
ghost use Rattle.indexmap.specs.IndexMap.{index_map_len};
ghost use Rattle.std.specs.Option.{IfNone};
ghost use Rattle.q_register.specs.Places.{IsAbsent, IsFound, IsIndexed};

use crate::member::Member;
use indexmap::IndexMap;
use std::hash::Hash;

/// A member and its place.
#[derive(Clone, Copy, Debug)]
pub(crate) struct Found<K, T> {
    pub(crate) place: u32,
    pub(crate) member: Member<K, T>,
}

/// The place of the member under a key.
fn place_of<K: Eq + Hash>(index: &IndexMap<K, u32>, key: &K) -> Option<u32>
    ensures { result ≡ get K.eq index.now key.now }
{
    match index.get(key) {
        Some(place) => Some(*place),
        None => None,
    }
}

/// What stands at a place.
fn standing_at<K: Copy, T: Copy>(
    places: &Vec<Option<Member<K, T>>>,
    place: u32,
) -> Option<Member<K, T>>
    requires { place < vec_len places.now }
    ensures { slice_get places.now.items place ≡ Some result }
{
    places[place as usize]
}

/// The member under a key, and its place.
pub(crate) fn seek<K: Eq + Hash + Copy, T: Copy>(
    places: &Vec<Option<Member<K, T>>>,
    index: &IndexMap<K, u32>,
    key: &K,
) -> Option<Found<K, T>>
    requires { IsIndexed K.eq places.now.items index.now }
    ensures none { IfNone result (IsAbsent K.eq key.now places.now.items) }
    ensures some { IfSome result (IsFound K.eq key.now places.now.items) }
{
    let place = place_of(index, key)?;
    let member = standing_at(places, place)?;
    Some(Found { place, member })
}

/// Notes the place of a member, over that of one that went.
pub(crate) fn enter<K: Eq + Hash + Drop>(index: &mut IndexMap<K, u32>, key: K, place: u32)
    requires { 0 < spare index.old }
    ensures updates { Updates K.eq index.old index.new key (Some place) }
    ensures len { index_map_len index.new ≤ index_map_len index.old + 1 }
    ensures room { index_map_len index.old + spare index.old
        ≤ index_map_len index.new + spare index.new }
{
    if let Some(old) = index.get_mut(&key) {
        *old = place;
        return;
    }
    let _ = index.insert(key, place);
}
