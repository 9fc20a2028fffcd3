//! What is known of the messages in memory.
ghost use Rattle.std.specs.Prelude.{◌≡◌, find};
ghost use Rattle.std.specs.Option.{option_copied};
ghost use Rattle.q_keyed.specs.Numbered.{values_of};
ghost use Rattle.q_schedule.specs.Sound.{facts_at, is_ranked};

use crate::ranked::Ranked;
use q_keyed::Keyed;
use q_model::Id;
use q_turns::Facts;

/// The message of an id.
pub(crate) fn message(messages: &Keyed<Ranked>, id: Id) -> Option<&Ranked>
    ensures { option_copied result ≡ find (is_ranked id) (values_of messages.now.items) }
{
    let number = messages.find(&id)?;
    messages.get(number)
}

/// What is known of it.
pub(crate) fn facts_at(messages: &Keyed<Ranked>, id: Id) -> Option<Facts>
    ensures { result ≡ facts_at (values_of messages.now.items) id }
{
    let ranked = message(messages, id)?;
    Some(ranked.facts())
}
