//! Items under their numbers, and lists of numbers that are fresh.
ghost use Rattle.std.specs.Prelude.{◌≡◌, ◌<◌, ◌≤◌, ◌^◌, [], get_or, IfOk, length, None, set, Some, vec_capacity};
ghost use Rattle.q_keyed.specs.Slots.{with_places};
ghost use Rattle.std.specs.Option.{option_copied};

use q_chains::Chains;
use std::alloc::{AllocError, Global};

/// The list in `order` of the numbers of items.
pub(crate) const USED: u32 = 0;

/// The list in `order` of the numbers that are free.
pub(crate) const FREE: u32 = 1;

/// Room for so many items. None of their numbers has a place yet.
pub(crate) fn fresh_items<T>(alloc: Global, room: u32) -> Result<Vec<Option<T>>, AllocError>
    ensures none { IfOk result (λ items. items.items ≡ []) }
    ensures room { IfOk result (λ items. room ≤ vec_capacity items) }
{
    Vec::with_capacity(alloc, room as usize)
}

/// Gives each number up to this one a place. It is made when a number is first used, so that only as
/// much memory is written to as was ever used at a time.
pub(crate) fn make_place<T>(items: &mut Vec<Option<T>>, number: u32, room: u32)
    requires below { number < room }
    requires capacity { room ≤ vec_capacity items.old }
    ensures items { items.new.items ≡ with_places number items.old.items }
    ensures capacity { vec_capacity items.new ≡ vec_capacity items.old }
{
    while items.len() <= number as usize {
        items.push_reserved(None);
    }
}

/// The two lists of numbers, of which all are free. The least is the last of them, and so the one that
/// is used first.
pub(crate) fn fresh_order(alloc: Global, room: u32) -> Result<Chains, AllocError>
    requires { room < 2 ^ 31 }
    ensures two { IfOk result (λ order. length order.lists ≡ 2) }
    ensures none { IfOk result (λ order. get_or order.lists 0 [] ≡ []) }
    ensures all { IfOk result (λ order. length (get_or order.lists 1 []) ≡ room) }
    ensures numbers { IfOk result (λ order. order.numbers ≡ room) }
{
    let mut order = Chains::new(alloc, 2, room)?;
    for used in 0..room {
        order.push(FREE, room - 1 - used);
    }
    Ok(order)
}

/// The item under a number.
pub(crate) fn item_at<T>(items: &Vec<Option<T>>, number: u32) -> Option<&T>
    ensures { option_copied result ≡ get_or items.now.items number None }
{
    match items.get(number as usize) {
        Some(Some(item)) => Some(item),
        _ => None,
    }
}

/// Puts an item under a number.
pub(crate) fn put_item<T: Drop>(items: &mut Vec<Option<T>>, number: u32, item: T)
    requires { number < length items.old.items }
    ensures items { items.new.items ≡ set items.old.items number (Some item) }
    ensures capacity { vec_capacity items.new ≡ vec_capacity items.old }
{
    items[number as usize] = Some(item);
}

/// Takes the item under a number.
pub(crate) fn take_item<T>(items: &mut Vec<Option<T>>, number: u32) -> Option<T>
    requires { number < length items.old.items }
    ensures taken { result ≡ get_or items.old.items number None }
    ensures items { items.new.items ≡ set items.old.items number None }
    ensures capacity { vec_capacity items.new ≡ vec_capacity items.old }
{
    items[number as usize].take()
}
