//! The register.
ghost use Rattle.std.specs.Prelude.{◌≡◌, ◌<◌, ◌≤◌, ◌-◌, ◌++◌, ◌^◌, [], ◌∷◌, IfOk, filter, find, length, map, None};
ghost use Rattle.std.specs.Option.{option_copied};
ghost use Rattle.q_register.specs.Members.{AreApart, changed, first_ranked, has_key, lacks_key, no_rank, ranks_within};
ghost use Rattle.q_register.specs.Places.{members_of};
ghost use Rattle.q_register.specs.Sound.{places_for};

use crate::member::Member;
use crate::places::{append, find_in, first_in, first_within_in, put, take_out};
use crate::together::make_place;
use indexmap::IndexMap;
use q_least::Least;
use std::alloc::{AllocError, Global};
use std::hash::Hash;
use std::marker::Model;

/// Members by key, in the order in which they came. A contract sees them as one list.
#[derive(Debug, Drop)]
pub struct Register<K: Eq + Hash, T> {
    places: Vec<Option<Member<K, T>>>,
    index: IndexMap<K, u32>,
    ranks: Least,
    /// The members while they move together.
    kept: Vec<Member<K, T>>,
    live: u32,
    room: u32,
}

impl<K: Eq + Hash, T> Model for Register<K, T> {
    ghost use Rattle.std.specs.Prelude.{length};
    ghost use Rattle.q_register.specs.Members.{Members, members_code};
    ghost use Rattle.q_register.specs.Places.{members_of};
    ghost use Rattle.q_register.specs.Sound.{IsSound};

    ghost Value = { Members K T };

    ghost coded = { members_code K.code T.code };

    ghost view = { λ a. record { items = members_of a.places.items; room = a.room } };

    ghost invariant = { λ a. IsSound K.eq a.places a.index a.ranks a.kept a.live a.room };
}

/// How many places there are for so many members: half as many again, so that members move together
/// only now and then.
fn places_for(room: u32) -> u32
    requires { room < 2 ^ 31 }
    ensures { result ≡ places_for room }
{
    room + room / 2
}

impl<K: Eq + Hash + Copy + Drop, T: Copy> Register<K, T> {
    /// The rank of a member that is never the first, and the greatest.
    pub const UNRANKED: u64 = Least::NONE;

    /// No member, and room for so many. It takes memory for two and a half times as many members,
    /// for half as many keys again in an index, and for ranks, below 96 bytes for each member that
    /// has room.
    pub fn new(alloc: Global, room: u32) -> Result<Register<K, T>, AllocError>
        requires some { 1 ≤ room }
        requires few { room < 2 ^ 31 }
        ensures { IfOk result (λ made. made ≡ record { items = []; room = room }) }
    {
        let count = places_for(room);
        let places = Vec::with_capacity(alloc, count as usize)?;
        let index = IndexMap::with_capacity(alloc, count as usize)?;
        let ranks = Least::new(alloc, count)?;
        let kept = Vec::with_capacity(alloc, room as usize)?;
        Ok(Register {
            places,
            index,
            ranks,
            kept,
            live: 0,
            room,
        })
    }

    /// No two members stand under one key, and there are no more than have room, whatever was
    /// called: this does nothing, and is there for callers whose proofs want to know it.
    pub fn stand_apart(&self)
        ensures apart { AreApart K.eq self.now.items }
        ensures within { length self.now.items ≤ self.now.room }
    {
        let _live = self.live;
    }

    /// The members in order as they stand, with places between them that are empty.
    pub fn places(&self) -> &[Option<Member<K, T>>]
        ensures { members_of result.now ≡ self.now.items }
    {
        self.places.as_slice()
    }

    /// How many members there are.
    pub fn len(&self) -> usize
        ensures { result ≡ length self.now.items }
    {
        self.live as usize
    }

    /// How many members more have room.
    pub fn spare(&self) -> u32
        ensures { result ≡ self.now.room - length self.now.items }
    {
        self.room - self.live
    }

    /// The member under a key.
    pub fn get(&self, key: &K) -> Option<&Member<K, T>>
        ensures { option_copied result ≡ find (has_key K.eq key.now) self.now.items }
    {
        find_in(&self.places, &self.index, &self.ranks, key)
    }

    /// The first member of those with the least rank, or None where no member has a rank.
    pub fn first(&self) -> Option<&Member<K, T>>
        ensures { option_copied result ≡ first_ranked self.now.items }
    {
        first_in(&self.places, &self.index, &self.ranks)
    }

    /// The first member whose rank is at most `bound`; those without a rank aside.
    pub fn first_within(&self, bound: u64) -> Option<&Member<K, T>>
        requires { bound < no_rank }
        ensures { option_copied result ≡ find (ranks_within bound) self.now.items }
    {
        first_within_in(&self.places, &self.index, &self.ranks, bound)
    }

    /// Adds a member behind all others.
    pub fn push(&mut self, member: Member<K, T>)
        requires absent { find (has_key K.eq member.key) self.old.items ≡ None }
        requires room { length self.old.items < self.old.room }
        ensures { self.new ≡ record self.old { items = self.old.items ++ member ∷ [] } }
    {
        make_place(
            &mut self.places,
            &mut self.index,
            &mut self.ranks,
            &mut self.kept,
            places_for(self.room) as usize,
        );
        append(&mut self.places, &mut self.index, &mut self.ranks, member);
        self.live += 1;
    }

    /// Puts another value and rank under a key, if a member stands under it.
    pub fn set(&mut self, key: &K, value: T, rank: u64)
        ensures { self.new ≡ record self.old
            { items = map (changed K.eq key.now value rank) self.old.items } }
    {
        put(
            &mut self.places,
            &self.index,
            &mut self.ranks,
            key,
            value,
            rank,
        );
    }

    /// Takes the member under a key out.
    pub fn remove(&mut self, key: &K) -> Option<Member<K, T>>
        ensures taken { result ≡ find (has_key K.eq key.now) self.old.items }
        ensures items { self.new ≡ record self.old
            { items = filter (lacks_key K.eq key.now) self.old.items } }
    {
        let taken = take_out(&mut self.places, &self.index, &mut self.ranks, key)?;
        self.live -= 1;
        Some(taken)
    }
}
