//! The ranks that numbers get: at the end, between two others, and all anew.
ghost use Rattle.std.specs.Prelude.{◌≡◌, ◌≢◌, ◌<◌, ◌≤◌, ◌+◌, ◌^◌, [], false, get_or, IfSome, length, set, ℕ};
ghost use Rattle.std.specs.Option.{IfNone, is_none};
ghost use Rattle.q_ranks.specs.Ranking.{AreLow, rank_of, Rises};

use q_chains::Chains;

/// The one list of numbers.
pub(crate) const ORDER: u32 = 0;

/// How far ranks stand apart at first.
const STEP: u64 = 1 << 32;

/// Ranks stay below this, which leaves room for as many steps as there can be numbers.
const LIMIT: u64 = 1 << 63;

/// A number that comes between two others leaves one of so many parts of the ranks between them below
/// it, and the rest for the next one that is put before the same number.
const PARTS: u64 = 1024;

/// The rank of a number, and 0, which is below that of each in the order, where there is none.
pub(crate) fn rank_of(ranks: &Vec<u64>, number: Option<u32>) -> u64
    ensures { result ≡ rank_of ranks.now.items number }
{
    match number {
        Some(number) => ranks.get(number as usize).copied().unwrap_or(0),
        None => 0,
    }
}

/// A rank behind the last one, or None where it would reach `LIMIT`.
pub(crate) fn rank_behind(last: u64) -> Option<u64>
    ensures behind { IfSome result (λ rank. last < rank) }
    ensures low { IfSome result (λ rank. rank < LIMIT) }
    ensures none { IfNone result (LIMIT ≤ last + STEP) }
{
    if last < LIMIT - STEP {
        Some(last + STEP)
    } else {
        None
    }
}

/// A rank between two others, low among those that are left, or None where none is left.
pub(crate) fn rank_between(lower: u64, upper: u64) -> Option<u64>
    ensures above { IfSome result (λ rank. lower < rank) }
    ensures below { IfSome result (λ rank. rank < upper) }
    ensures none { IfNone result (upper ≤ lower + 1) }
{
    let free = upper.saturating_sub(lower).saturating_sub(1);
    if free == 0 {
        return None;
    }
    Some(lower + (free / PARTS).max(1))
}

/// Ranks all numbers of the order anew, `STEP` apart, in a walk along it.
fn rank_anew(order: &Chains, ranks: &mut Vec<u64>)
    requires one { length order.now.lists ≡ 1 }
    requires each { length ranks.old.items ≡ order.now.numbers }
    requires few { order.now.numbers < 2 ^ 31 }
    requires low { AreLow ranks.old.items }
    ensures low { AreLow ranks.new.items }
    ensures rises { Rises ranks.new.items (get_or order.now.lists 0 []) }
    ensures each { length ranks.new.items ≡ length ranks.old.items }
{
    let mut count: u64 = 0;
    let mut at = order.first(ORDER);
    while let Some(number) = at {
        count += 1;
        ranks[number as usize] = count * STEP;
        at = order.next(number);
    }
}

/// Gives a number in the order this rank, or ranks all anew where there is none for it, and says
/// whether it did that.
pub(crate) fn give_rank(
    order: &Chains,
    ranks: &mut Vec<u64>,
    number: u32,
    rank: Option<u64>,
) -> bool
    requires one { length order.now.lists ≡ 1 }
    requires each { length ranks.old.items ≡ order.now.numbers }
    requires few { order.now.numbers < 2 ^ 31 }
    requires known { number < order.now.numbers }
    requires low { AreLow ranks.old.items }
    requires below { IfSome rank (λ rank. rank < LIMIT) }
    requires fits { IfSome rank (λ rank.
        Rises (set ranks.old.items number rank) (get_or order.now.lists 0 [])) }
    ensures anew { result ≡ is_none rank }
    ensures low { AreLow ranks.new.items }
    ensures rises { Rises ranks.new.items (get_or order.now.lists 0 []) }
    ensures each { length ranks.new.items ≡ length ranks.old.items }
    ensures kept { result ≡ false → (n : ℕ) → n ≢ number
        → get_or ranks.new.items n 0 ≡ get_or ranks.old.items n 0 }
{
    match rank {
        Some(rank) => {
            ranks[number as usize] = rank;
            false
        }
        None => {
            rank_anew(order, ranks);
            true
        }
    }
}
