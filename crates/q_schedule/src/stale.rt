//! The message whose candidates aren't kept.
ghost use Rattle.std.specs.Prelude.{◌≡◌, None, Some, true};
ghost use Rattle.q_keyed.specs.Numbered.{values_of};
ghost use Rattle.q_schedule.specs.Sound.{AreKept, is_stale};
ghost use Rattle.q_turns.specs.Suspending.{AreTied};

use crate::messages::facts_at;
use crate::ranked::Ranked;
use q_candidates::Candidates;
use q_keyed::Keyed;
use q_model::Id;
use q_turns::Turns;

/// Whether it is this message.
fn is_stale(stale: Option<Id>, id: Id) -> bool
    ensures { result ≡ is_stale stale id }
{
    match stale {
        Some(stale) => stale == id,
        None => false,
    }
}

/// Files the candidates of the message that was stale.
fn settle(turns: &Turns, messages: &Keyed<Ranked>, candidates: &mut Candidates, stale: Option<Id>)
    requires room { candidates.old.room ≡ turns.now.room }
    requires tied { AreTied turns.now.suspended candidates.old.suspended }
    requires kept { AreKept turns.now.lines turns.now.peers (values_of messages.now.items) stale
        candidates.old.items }
    ensures room { candidates.new.room ≡ candidates.old.room }
    ensures tied { AreTied turns.now.suspended candidates.new.suspended }
    ensures kept { AreKept turns.now.lines turns.now.peers (values_of messages.now.items) None
        candidates.new.items }
{
    if let Some(id) = stale {
        turns.file(id, facts_at(messages, id), candidates);
    }
}

/// Makes the message the stale one. Its candidates are taken out, and those of the one that was
/// stale are filed.
pub(crate) fn touch(
    turns: &Turns,
    messages: &Keyed<Ranked>,
    candidates: &mut Candidates,
    stale: &mut Option<Id>,
    id: Id,
)
    requires room { candidates.old.room ≡ turns.now.room }
    requires tied { AreTied turns.now.suspended candidates.old.suspended }
    requires kept { AreKept turns.now.lines turns.now.peers (values_of messages.now.items) stale.old
        candidates.old.items }
    ensures room { candidates.new.room ≡ candidates.old.room }
    ensures tied { AreTied turns.now.suspended candidates.new.suspended }
    ensures stale { stale.new ≡ Some id }
    ensures kept { AreKept turns.now.lines turns.now.peers (values_of messages.now.items) (Some id)
        candidates.new.items }
{
    if is_stale(*stale, id) {
        return;
    }
    settle(turns, messages, candidates, *stale);
    turns.file(id, None, candidates);
    *stale = Some(id);
}

/// Does the same where what the message needs changes.
pub(crate) fn touch_where(
    turns: &Turns,
    messages: &Keyed<Ranked>,
    candidates: &mut Candidates,
    stale: &mut Option<Id>,
    id: Id,
    is_changed: bool,
)
    requires room { candidates.old.room ≡ turns.now.room }
    requires tied { AreTied turns.now.suspended candidates.old.suspended }
    requires kept { AreKept turns.now.lines turns.now.peers (values_of messages.now.items) stale.old
        candidates.old.items }
    ensures room { candidates.new.room ≡ candidates.old.room }
    ensures tied { AreTied turns.now.suspended candidates.new.suspended }
    ensures stale { is_changed ≡ true → stale.new ≡ Some id }
    ensures kept { AreKept turns.now.lines turns.now.peers (values_of messages.now.items) stale.new
        candidates.new.items }
{
    if is_changed {
        touch(turns, messages, candidates, stale, id);
    }
}
