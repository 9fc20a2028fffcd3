//! What the outcomes of recipients need before they are settled.
ghost use Rattle.std.specs.Prelude.{◌≡◌, ◌++◌, IfOk, OnOk, slice_get};
ghost use Rattle.std.specs.Option.{option_copied};
ghost use Rattle.q_ledger.specs.Needs.{need_at, need_in, needs_in, needs_put_off};

use q_model::{Id, Need, NoMemory, Outcome, Unsettled, Why};
use std::alloc::Global;

/// A mark, or a failure's record and then a mark. A delay needs nothing unless the message is too old.
fn need(expired: bool, outcome: Outcome) -> Option<Need>
    ensures { result ≡ need_in expired outcome }
{
    match outcome {
        Outcome::Ok => Some(Need::Mark),
        Outcome::Never(code) => Some(Need::Log {
            why: Why::Refused,
            code,
        }),
        Outcome::Later(code) => {
            if expired {
                Some(Need::Log {
                    why: Why::Expired,
                    code,
                })
            } else {
                None
            }
        }
    }
}

fn add_need(
    needs: &mut Vec<Unsettled>,
    id: Id,
    expired: bool,
    position: u32,
    outcome: Option<&Outcome>,
) -> Result<(), NoMemory>
    ensures { OnOk result (needs.new.items ≡ needs.old.items ++ need_at expired id position
        (option_copied outcome.entry)) }
{
    let Some(outcome) = outcome else {
        return Ok(());
    };
    if let Some(need) = need(expired, *outcome) {
        needs.push(Unsettled { id, position, need })?;
    }
    Ok(())
}

fn outcome_at(outcomes: &[Outcome], i: usize) -> Option<&Outcome>
    ensures { option_copied result ≡ slice_get outcomes.now i }
{
    outcomes.get(i)
}

/// What these outcomes of a message's recipients need, in their order.
pub(crate) fn needs(
    alloc: Global,
    id: Id,
    expired: bool,
    positions: &[u32],
    outcomes: &[Outcome],
) -> Result<Vec<Unsettled>, NoMemory>
    ensures { IfOk result (λ needs. needs.items ≡ needs_in expired id positions.now outcomes.now) }
{
    let mut needs = Vec::new(alloc);
    for i in 0..positions.len() {
        add_need(
            &mut needs,
            id,
            expired,
            positions[i],
            outcome_at(outcomes, i),
        )?;
    }
    Ok(needs)
}

/// What a message's recipients need that are put off without a code.
pub(crate) fn put_off(
    alloc: Global,
    id: Id,
    expired: bool,
    positions: &[u32],
) -> Result<Vec<Unsettled>, NoMemory>
    ensures { IfOk result (λ needs. needs.items ≡ needs_put_off expired id positions.now) }
{
    let outcomes = vec![in alloc; Outcome::Later(0); positions.len()]?;
    needs(alloc, id, expired, positions, &outcomes)
}
