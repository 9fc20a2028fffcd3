//! The first leaf whose key is at most a bound, by a way down from the root. All leaves are equally
//! deep, so those below the first child of a place stand before those below the second.
ghost use Rattle.std.specs.Int.{IsPowerOfTwo};
ghost use Rattle.std.specs.Prelude.{◌≡◌, ◌<◌, ◌+◌, ◌*◌, All, IfSome, length};
ghost use Rattle.std.specs.Option.{IfNone};
ghost use Rattle.q_least.specs.Trees.{IsFirstWithin, IsTree, child_within, leaf_keys};

use crate::tree::{Keyed, keyed_at};

/// The first child whose key is at most the bound, where that of one is.
fn child_within(tree: &Vec<Keyed>, place: usize, bound: u64) -> usize
    requires { 2 * place + 1 < length tree.now.items }
    ensures { result ≡ child_within bound tree.now.items place }
{
    if keyed_at(tree, 2 * place).key <= bound {
        2 * place
    } else {
        2 * place + 1
    }
}

/// The first leaf whose key is at most the bound.
pub(crate) fn first_leaf_within(tree: &Vec<Keyed>, leaves: usize, bound: u64) -> Option<u32>
    requires tree { IsTree leaves tree.now.items }
    requires power { IsPowerOfTwo leaves }
    ensures none { IfNone result (All (λ key. bound < key) (leaf_keys leaves tree.now.items)) }
    ensures some { IfSome result (IsFirstWithin bound (leaf_keys leaves tree.now.items)) }
{
    if keyed_at(tree, 1).key > bound {
        return None;
    }
    let mut place = 1;
    while place < leaves {
        place = child_within(tree, place, bound);
    }
    Some(keyed_at(tree, place).number)
}
