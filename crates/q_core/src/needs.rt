//! What the outcomes of recipients need before they are settled.
ghost use Rattle.std.specs.Prelude.{◌≡◌, ◌≤◌, ◌<◌, ◌+◌, ◌++◌, IsTrue, length, slice_get, true};
ghost use Rattle.std.specs.Option.{option_copied};
ghost use Rattle.q_core.specs.Needs.{need_at, need_in, needs_in, needs_put_off};

use q_model::{Id, Need, Outcome, Unsettled, Why};
use q_queue::Queue;

/// A mark, or a failure's record and then a mark. A delay needs nothing unless the message is
/// too old.
fn need(expired: bool, outcome: Outcome) -> Option<Need>
    ensures { result ≡ need_in expired outcome }
{
    match outcome {
        Outcome::Ok => Some(Need::Mark),
        Outcome::Never(code) => Some(Need::Log {
            why: Why::Refused,
            code,
        }),
        Outcome::Later(code) => {
            if expired {
                Some(Need::Log {
                    why: Why::Expired,
                    code,
                })
            } else {
                None
            }
        }
    }
}

fn add_need(
    unsettled: &mut Queue<Unsettled>,
    id: Id,
    expired: bool,
    position: u32,
    outcome: Option<&Outcome>,
)
    requires { length unsettled.old.items < unsettled.old.room }
    ensures { unsettled.new ≡ record unsettled.old {
      items = unsettled.old.items
          ++ need_at expired id position (option_copied outcome.entry);
    } }
{
    let Some(outcome) = outcome else {
        return;
    };
    if let Some(need) = need(expired, *outcome) {
        unsettled.push(Unsettled { id, position, need });
    }
}

fn outcome_at(outcomes: &[Outcome], i: usize) -> Option<&Outcome>
    ensures { option_copied result ≡ slice_get outcomes.now i }
{
    outcomes.get(i)
}

/// Adds what these outcomes of a message's recipients need, in their order.
pub(crate) fn add_needs(
    unsettled: &mut Queue<Unsettled>,
    id: Id,
    expired: bool,
    positions: &[u32],
    outcomes: &[Outcome],
)
    requires { length unsettled.old.items + length positions.now ≤ unsettled.old.room }
    ensures { unsettled.new ≡ record unsettled.old {
      items = unsettled.old.items
          ++ needs_in expired id positions.now outcomes.now;
    } }
{
    for i in 0..positions.len() {
        add_need(
            unsettled,
            id,
            expired,
            positions[i],
            outcome_at(outcomes, i),
        );
    }
}

/// Adds what recipients need that are put off without a code and whose message is too old: their
/// failures are logged.
fn add_failures(unsettled: &mut Queue<Unsettled>, id: Id, positions: &[u32])
    requires { length unsettled.old.items + length positions.now ≤ unsettled.old.room }
    ensures { unsettled.new ≡ record unsettled.old {
      items = unsettled.old.items
          ++ needs_put_off true id positions.now;
    } }
{
    for i in 0..positions.len() {
        unsettled.push(Unsettled {
            id,
            position: positions[i],
            need: Need::Log {
                why: Why::Expired,
                code: 0,
            },
        });
    }
}

/// Adds what a message's recipients need that are put off without a code.
pub(crate) fn add_put_off(
    unsettled: &mut Queue<Unsettled>,
    id: Id,
    expired: bool,
    positions: &[u32],
)
    requires { IsTrue expired
        → length unsettled.old.items + length positions.now ≤ unsettled.old.room }
    ensures { unsettled.new ≡ record unsettled.old {
      items = unsettled.old.items
          ++ needs_put_off expired id positions.now;
    } }
{
    if expired {
        add_failures(unsettled, id, positions);
    }
}
