//! The age of a message, against the times of the parameters.
ghost use Rattle.std.specs.Prelude.{◌≤◌};
ghost use Rattle.q_backoff.specs.Ages.{IsDue, IsExpiry};

use q_model::Moment;
use q_settings::Params;

/// When a message that arrived then is due again: its age from now on, which is taken as at least
/// the minimal and at most the maximal back-off. The age of a message that arrives later is 0.
pub fn due(now: Moment, arrival: Moment, params: &Params) -> Moment
    requires { now ≤ 999990000000 }
    ensures { IsDue params.now arrival now result }
{
    let shortest = u64::from(params.minimal_backoff_time);
    let longest = u64::from(params.maximal_backoff_time);
    let age = now.saturating_sub(arrival);
    now + shortest.max(longest.min(age))
}

/// Whether a message that arrived then has reached its lifetime. A bounce, whose sender is null,
/// has a lifetime of its own.
pub fn expired(now: Moment, arrival: Moment, null_sender: bool, params: &Params) -> bool
    ensures { IsExpiry params.now arrival null_sender now result }
{
    let lifetime = if null_sender {
        params.bounce_queue_lifetime
    } else {
        params.maximal_queue_lifetime
    };
    now.saturating_sub(arrival) >= u64::from(lifetime)
}
