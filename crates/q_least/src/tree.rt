//! Keys in a tree: place 1 is the root, and the children of a place are at twice its number and
//! the next. The leaves stand behind all inner places, in the order of their numbers.
ghost use Rattle.std.specs.Prelude.{◌≡◌, ◌<◌, ◌≤◌, ◌+◌, ◌*◌, ◌/◌, ◌^◌, IfOk, drop, length, slice_get, slice_set, Some};
ghost use Rattle.q_least.specs.Trees.{AreLesserBut, AreNumbered, IsTree, is_before, keyed_at, leaf_keys, lesser};
ghost use Rattle.q_least.specs.Keys.{IsLeastAt};

/// A key and the number that has it.
#[derive(Clone, Copy, Debug)]
pub(crate) struct Keyed {
    pub(crate) key: u64,
    pub(crate) number: u32,
}

impl Keyed {
    /// Whether it has a lesser key than the other, or the same and a lesser number.
    fn is_before(self, other: Keyed) -> bool
        ensures { result ≡ is_before self other }
    {
        self.key < other.key || self.key == other.key && self.number < other.number
    }

    fn lesser(self, other: Keyed) -> Keyed
        ensures { result ≡ lesser self other }
    {
        if other.is_before(self) { other } else { self }
    }
}

pub(crate) fn keyed_at(tree: &Vec<Keyed>, place: usize) -> Keyed
    requires { place < length tree.now.items }
    ensures { slice_get tree.now.items place ≡ Some result }
{
    tree[place]
}

/// Gives a place the lesser of its children.
pub(crate) fn lessen(tree: &mut Vec<Keyed>, place: usize)
    requires { 2 * place + 1 < length tree.old.items }
    ensures { tree.new.items ≡ slice_set tree.old.items place
        (lesser (keyed_at tree.old.items (2 * place)) (keyed_at tree.old.items (2 * place + 1))) }
{
    tree[place] = keyed_at(tree, 2 * place).lesser(keyed_at(tree, 2 * place + 1));
}

/// Mends the places above this one, of which the next may be wrong.
fn mend(tree: &mut Vec<Keyed>, leaves: usize, from: usize)
    requires some { 1 ≤ from }
    requires within { from < 2 * leaves }
    requires len { length tree.old.items ≡ 2 * leaves }
    requires few { leaves ≤ 2 ^ 32 }
    requires lesser { AreLesserBut (from / 2) leaves tree.old.items }
    requires numbered { AreNumbered leaves tree.old.items }
    ensures tree { IsTree leaves tree.new.items }
    ensures leaves { drop leaves tree.new.items ≡ drop leaves tree.old.items }
{
    let mut place = from;
    while place > 1 {
        place /= 2;
        lessen(tree, place);
    }
}

/// Gives a leaf another key.
pub(crate) fn set_leaf(tree: &mut Vec<Keyed>, leaves: usize, leaf: u32, key: u64)
    requires tree { IsTree leaves tree.old.items }
    requires leaf { leaf < leaves }
    ensures tree { IsTree leaves tree.new.items }
    ensures leaves { leaf_keys leaves tree.new.items
        ≡ slice_set (leaf_keys leaves tree.old.items) leaf key }
{
    let place = leaves + leaf as usize;
    tree[place] = Keyed { key, number: leaf };
    mend(tree, leaves, place);
}

/// The key of a leaf.
pub(crate) fn leaf_key(tree: &Vec<Keyed>, leaves: usize, leaf: usize) -> u64
    requires tree { IsTree leaves tree.now.items }
    requires leaf { leaf < leaves }
    ensures { slice_get (leaf_keys leaves tree.now.items) leaf ≡ Some result }
{
    keyed_at(tree, leaves + leaf).key
}

/// The first leaf with the least key.
pub(crate) fn least_leaf(tree: &Vec<Keyed>, leaves: usize) -> u32
    requires { IsTree leaves tree.now.items }
    ensures { IsLeastAt (leaf_keys leaves tree.now.items) result }
{
    keyed_at(tree, 1).number
}
