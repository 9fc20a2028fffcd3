//! The lists of numbers, as they are at first.
ghost use Rattle.std.specs.Prelude.{◌≡◌, ◌<◌, ◌^◌, [], get_or, IfOk, length};

use q_chains::Chains;
use std::alloc::{AllocError, Global};

/// The list in `order` of the numbers of rows that wait.
pub(crate) const WAITING: u32 = 0;

/// The list in `order` of the numbers that are free.
pub(crate) const FREE: u32 = 1;

/// The two lists of numbers, of which all are free.
pub(crate) fn fresh_order(alloc: Global, room: u32) -> Result<Chains, AllocError>
    requires { room < 2 ^ 31 }
    ensures two { IfOk result (λ order. length order.lists ≡ 2) }
    ensures none { IfOk result (λ order. get_or order.lists 0 [] ≡ []) }
    ensures all { IfOk result (λ order. length (get_or order.lists 1 []) ≡ room) }
    ensures numbers { IfOk result (λ order. order.numbers ≡ room) }
{
    let mut order = Chains::new(alloc, 2, room)?;
    for number in 0..room {
        order.push(FREE, number);
    }
    Ok(order)
}
