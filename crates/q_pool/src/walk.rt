//! The first message that has something to do.
ghost use Rattle.std.specs.Prelude.{◌≡◌, ◌<◌, find};
ghost use Rattle.std.specs.Option.{option_copied};
ghost use Rattle.q_pool.specs.Kept.{is_idle, may_read, wants_sync};
ghost use Rattle.q_pool.specs.Ranks.{IsFirstWithin, message_at, passes_at, values_of};
ghost use Rattle.q_register.specs.Members.{no_rank};

use crate::kept::Kept;
use crate::pool::Pool;
use q_model::Id;
use q_register::Member;

/// The message at a place.
fn message_at<'a>(place: Option<&'a Option<Member<Id, Kept>>>) -> Option<&'a Kept>
    ensures { option_copied result ≡ message_at (option_copied place.entry) }
{
    match place {
        Some(Some(member)) => Some(&member.value),
        Some(None) => None,
        None => None,
    }
}

/// Whether an idle message stands at the place.
fn is_idle_place(place: &Option<Member<Id, Kept>>) -> bool
    ensures { result ≡ passes_at is_idle place.now }
{
    match place {
        Some(member) => member.value.is_idle(),
        None => false,
    }
}

fn first_idle_place(places: &[Option<Member<Id, Kept>>]) -> Option<&Option<Member<Id, Kept>>>
    ensures { option_copied result ≡ find (passes_at is_idle) places.now }
{
    places.iter().find(|place| is_idle_place(place))
}

/// The first idle one, by a walk.
fn idle_among(places: &[Option<Member<Id, Kept>>]) -> Option<&Kept>
    ensures { option_copied result ≡ find is_idle (values_of places.now) }
{
    message_at(first_idle_place(places))
}

/// Whether a message that may read stands at the place.
fn is_reader_place(place: &Option<Member<Id, Kept>>, minimum: u32, free: u32) -> bool
    ensures { result ≡ passes_at (may_read minimum free) place.now }
{
    match place {
        Some(member) => member.value.may_read(minimum, free),
        None => false,
    }
}

fn first_reader_place(
    places: &[Option<Member<Id, Kept>>],
    minimum: u32,
    free: u32,
) -> Option<&Option<Member<Id, Kept>>>
    ensures { option_copied result ≡ find (passes_at (may_read minimum free)) places.now }
{
    places
        .iter()
        .find(|place| is_reader_place(place, minimum, free))
}

/// The first that may read, by a walk.
fn reader_among(places: &[Option<Member<Id, Kept>>], minimum: u32, free: u32) -> Option<&Kept>
    ensures { option_copied result ≡ find (may_read minimum free) (values_of places.now) }
{
    message_at(first_reader_place(places, minimum, free))
}

impl Pool {
    /// The first of those at this rank or a lesser one.
    fn first_within(&self, rank: u64) -> Option<&Kept>
        requires { rank < no_rank }
        ensures { IsFirstWithin self.now rank (option_copied result) }
    {
        match self.register.first_within(rank) {
            Some(member) => Some(&member.value),
            None => None,
        }
    }

    /// The first message whose marks are to be synced.
    pub fn first_to_sync(&self) -> Option<&Kept>
        ensures { option_copied result ≡ find (wants_sync self.now.sync_limit) self.now.items }
    {
        self.first_within(1)
    }

    /// The first idle message. It is a walk over all where marks are to be synced of one that isn't
    /// idle, which comes first.
    pub fn first_idle(&self) -> Option<&Kept>
        ensures { option_copied result ≡ find is_idle self.now.items }
    {
        match self.first_within(0) {
            Some(_) => idle_among(self.places()),
            None => self.first_within(2),
        }
    }

    /// The first message that may read, where `free` more recipients may come into memory. It is a
    /// walk over all where one is to be synced or is idle, which comes first.
    pub fn first_to_read(&self, free: u32) -> Option<&Kept>
        ensures { option_copied result
            ≡ find (may_read self.now.minimum free) self.now.items }
    {
        match self.first_within(2) {
            Some(_) => reader_among(self.places(), self.minimum, free),
            None => self.first_within(3 + u64::from(free)),
        }
    }
}
