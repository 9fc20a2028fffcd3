//! How many deliveries a job may need that preempts another one, by the account of delivery slots
//! (SCHEDULER_README, "Preemptive scheduling").
ghost use Rattle.std.specs.Prelude.{◌≡◌, ◌<◌, ◌*◌, ◌+◌, ◌^◌, ◌&&◌, ◌==◌, false, nat_le, not, ℕ};
ghost use Rattle.std.specs.Option.{option_map_or};
ghost use Rattle.q_core.specs.Choosing.{pays_in};

use q_jobs::Job;
use q_settings::Params;

/// The greatest need of which each delivery costs so much that fits in all, beside what is used.
/// None where that is more than all.
fn most_within(each: u128, used: u128, all: u128) -> Option<u64>
    ensures { (need : ℕ) → need < 2 ^ 64
        → nat_le (need * each + used) all ≡ option_map_or (nat_le need) result false }
{
    if all < used {
        return None;
    }
    if each == 0 {
        return Some(u64::MAX);
    }
    let most = (all - used) / each;
    Some(if most < u128::from(u64::MAX) {
        most as u64
    } else {
        u64::MAX
    })
}

/// The lesser of both, where both are there.
fn lesser(a: Option<u64>, b: Option<u64>) -> Option<u64>
    ensures { (need : ℕ) → (option_map_or (nat_le need) a false && option_map_or (nat_le need) b false)
        ≡ option_map_or (nat_le need) result false }
{
    match (a, b) {
        (Some(a), Some(b)) => Some(a.min(b)),
        _ => None,
    }
}

/// The greatest need of a job that may preempt the parent, which has so much left. None where no
/// job may. What its account lacks stands on the other side, so that no number is below 0.
pub(crate) fn most_need(params: &Params, parent: &Job, left: u64) -> Option<u64>
    ensures { (need : ℕ) → need < 2 ^ 64
        → (not (params.now.slot_cost == 0) && pays_in params.now parent.now left need)
        ≡ option_map_or (nat_le need) result false }
{
    let cost = u128::from(params.default_delivery_slot_cost);
    let begun = u128::from(parent.starts);
    let owed = cost * u128::from(parent.charged);
    let worth = begun + u128::from(left);
    if cost == 0 || worth < cost * u128::from(params.default_minimum_delivery_slots) {
        return None;
    }
    let share = u128::from(100u32.saturating_sub(params.default_delivery_slot_discount));
    let credit = 100 * (begun + u128::from(params.default_delivery_slot_loan) * cost);
    let paid = most_within(share * cost, 100 * owed, credit);
    lesser(paid, most_within(cost, owed, worth))
}
