//! A tree in which no number has a key.
ghost use Rattle.std.specs.Prelude.{◌≡◌, ◌<◌, ◌≤◌, ◌*◌, ◌^◌, drop, IfOk, length, replicate};
ghost use Rattle.std.specs.Int.{IsPowerOfTwo};
ghost use Rattle.q_least.specs.Keys.{no_key};
ghost use Rattle.q_least.specs.Trees.{AreLesser, AreNumbered, IsTree, keyless, leaf_keys};

use crate::least::Least;
use crate::tree::{Keyed, lessen};
use std::alloc::{AllocError, Global};

const NOTHING: Keyed = Keyed {
    key: Least::NONE,
    number: 0,
};

/// So many places without a key.
fn no_places(alloc: Global, places: usize) -> Result<Vec<Keyed>, AllocError>
    ensures { IfOk result (λ tree. tree.items ≡ replicate places keyless) }
{
    vec![in alloc; NOTHING; places]
}

/// Gives each leaf its number, and no key.
fn number_leaves(tree: &mut Vec<Keyed>, leaves: usize)
    requires len { length tree.old.items ≡ 2 * leaves }
    requires few { leaves ≤ 2 ^ 32 }
    ensures len { length tree.new.items ≡ 2 * leaves }
    ensures keys { leaf_keys leaves tree.new.items ≡ replicate leaves no_key }
    ensures numbered { AreNumbered leaves tree.new.items }
{
    for number in 0..leaves {
        tree[leaves + number] = Keyed {
            key: Least::NONE,
            number: number as u32,
        };
    }
}

/// Gives each inner place the lesser of its children, the last first.
fn lessen_all(tree: &mut Vec<Keyed>, leaves: usize)
    requires len { length tree.old.items ≡ 2 * leaves }
    ensures len { length tree.new.items ≡ 2 * leaves }
    ensures lesser { AreLesser leaves tree.new.items }
    ensures leaves { drop leaves tree.new.items ≡ drop leaves tree.old.items }
{
    let mut place = leaves;
    while place > 1 {
        place -= 1;
        lessen(tree, place);
    }
}

/// Takes the keys of all numbers away.
pub(crate) fn clear_keys(tree: &mut Vec<Keyed>, leaves: usize)
    requires some { 1 ≤ leaves }
    requires few { leaves ≤ 2 ^ 32 }
    requires len { length tree.old.items ≡ 2 * leaves }
    ensures tree { IsTree leaves tree.new.items }
    ensures keys { leaf_keys leaves tree.new.items ≡ replicate leaves no_key }
{
    number_leaves(tree, leaves);
    lessen_all(tree, leaves);
}

/// How many leaves a tree for so many numbers has: a power of two, so that all are equally deep.
pub(crate) fn leaves_for(count: u32) -> usize
    ensures power { IsPowerOfTwo result }
    ensures enough { count ≤ result }
    ensures few { result ≤ 2 ^ 32 }
{
    (count as usize).next_power_of_two()
}

/// A tree of so many leaves without a key.
pub(crate) fn no_keys(alloc: Global, leaves: usize) -> Result<Vec<Keyed>, AllocError>
    requires some { 1 ≤ leaves }
    requires few { leaves ≤ 2 ^ 32 }
    ensures tree { IfOk result (λ tree. IsTree leaves tree.items) }
    ensures keys { IfOk result (λ tree. leaf_keys leaves tree.items ≡ replicate leaves no_key) }
{
    let mut tree = no_places(alloc, 2 * leaves)?;
    clear_keys(&mut tree, leaves);
    Ok(tree)
}
