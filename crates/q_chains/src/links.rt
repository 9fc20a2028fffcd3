//! Places that lead to one another, forward and back: the links of doubly linked lists.
ghost use Rattle.std.specs.Prelude.{◌≡◌, ◌<◌, ◌≤◌, ◌+◌, ◌-◌, ◌^◌, get_or, IfOk, length, min, ℕ};
ghost use Rattle.q_chains.specs.Laid.{AreJoined, fresh_before, fresh_next, led_past, number_at, put_between};

use std::alloc::{AllocError, Global};

/// Where a place leads.
pub(crate) fn link_of(links: &Vec<u32>, place: u32) -> u32
    requires { place < length links.now.items }
    ensures { result ≡ get_or links.now.items place 0 }
{
    links[place as usize]
}

/// The number of a place, where it is none of the borders behind the numbers.
pub(crate) fn number_at(numbers: u32, place: u32) -> Option<u32>
    ensures { result ≡ number_at numbers place }
{
    if place < numbers { Some(place) } else { None }
}

fn fresh_next(numbers: u32, last: u32, place: u32) -> u32
    requires numbers { numbers ≤ last }
    requires place { place ≤ last }
    ensures { result ≡ fresh_next numbers last place }
{
    if place < numbers || place == last {
        place
    } else {
        place + 1
    }
}

fn fresh_before(numbers: u32, place: u32) -> u32
    ensures { result ≡ fresh_before numbers place }
{
    if place <= numbers { place } else { place - 1 }
}

/// Where each place leads while all lists are empty.
pub(crate) fn fresh_nexts(alloc: Global, numbers: u32, last: u32) -> Result<Vec<u32>, AllocError>
    requires { numbers ≤ last }
    ensures len { IfOk result (λ next. length next.items ≡ last + 1) }
    ensures items { IfOk result (λ next. (p : ℕ) → p ≤ last
        → get_or next.items p 0 ≡ fresh_next numbers last p) }
{
    let count = last as usize + 1;
    let mut next = Vec::with_capacity(alloc, count)?;
    for place in 0..count {
        next.push_reserved(fresh_next(numbers, last, place as u32));
    }
    Ok(next)
}

/// Where each place leads back to while all lists are empty.
pub(crate) fn fresh_befores(alloc: Global, numbers: u32, last: u32) -> Result<Vec<u32>, AllocError>
    ensures len { IfOk result (λ before. length before.items ≡ last + 1) }
    ensures items { IfOk result (λ before. (p : ℕ) → p ≤ last
        → get_or before.items p 0 ≡ fresh_before numbers p) }
{
    let count = last as usize + 1;
    let mut before = Vec::with_capacity(alloc, count)?;
    for place in 0..count {
        before.push_reserved(fresh_before(numbers, place as u32));
    }
    Ok(before)
}

/// Puts a number before a place.
pub(crate) fn put_before(next: &mut Vec<u32>, before: &mut Vec<u32>, number: u32, place: u32)
    requires joined { AreJoined next.old.items before.old.items }
    requires number { number < length next.old.items }
    requires place { place < length next.old.items }
    ensures next { next.new.items
        ≡ put_between next.old.items (get_or before.old.items place 0) number place }
    ensures before { before.new.items
        ≡ put_between before.old.items place number (get_or before.old.items place 0) }
{
    let ahead = before[place as usize];
    next[ahead as usize] = number;
    next[number as usize] = place;
    before[place as usize] = number;
    before[number as usize] = ahead;
}

/// Takes a number out of the list in which it stands.
pub(crate) fn take_out(next: &mut Vec<u32>, before: &mut Vec<u32>, number: u32)
    requires joined { AreJoined next.old.items before.old.items }
    requires number { number < length next.old.items }
    ensures next { next.new.items ≡ led_past next.old.items before.old.items number }
    ensures before { before.new.items ≡ led_past before.old.items next.old.items number }
{
    let ahead = before[number as usize];
    let behind = next[number as usize];
    next[ahead as usize] = behind;
    before[behind as usize] = ahead;
    next[number as usize] = number;
    before[number as usize] = number;
}
