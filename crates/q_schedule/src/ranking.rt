//! All messages are ranked anew, once all ranks are used up.
ghost use Rattle.std.specs.Prelude.{◌≡◌, ◌<◌, ◌+◌, ◌^◌, length, true};
ghost use Rattle.std.specs.Option.{is_some};
ghost use Rattle.q_keyed.specs.Numbered.{item_at, values_of};
ghost use Rattle.q_schedule.specs.Ranking.{anew, ranked_at};
ghost use Rattle.q_schedule.specs.Sound.{AreKept, AreRanked, messages_of};
ghost use Rattle.q_turns.specs.Suspending.{AreTied};

use crate::ranked::Ranked;
use crate::stale::touch;
use q_candidates::Candidates;
use q_keyed::Keyed;
use q_model::Id;
use q_turns::Turns;

/// The message of a number gets this rank.
fn rank_one(
    turns: &Turns,
    messages: &mut Keyed<Ranked>,
    candidates: &mut Candidates,
    stale: &mut Option<Id>,
    number: u32,
    rank: u64,
)
    requires room { candidates.old.room ≡ turns.now.room }
    requires tied { AreTied turns.now.suspended candidates.old.suspended }
    requires kept { AreKept turns.now.lines turns.now.peers (values_of messages.old.items)
        stale.old candidates.old.items }
    requires there { is_some (item_at number messages.old.items) ≡ true }
    ensures room { candidates.new.room ≡ candidates.old.room }
    ensures tied { AreTied turns.now.suspended candidates.new.suspended }
    ensures kept { AreKept turns.now.lines turns.now.peers (values_of messages.new.items)
        stale.new candidates.new.items }
    ensures ranked { messages.new ≡ record messages.old
        { items = ranked_at number rank messages.old.items } }
{
    messages.stand_apart();
    let Some(ranked) = messages.get(number).copied() else {
        return;
    };
    touch(turns, messages, candidates, stale, ranked.message.id);
    let message = ranked.message;
    messages.put(number, Ranked { message, rank });
}

/// All messages get ranks from 0 on, in their order, which gives the rank of the next one.
pub(crate) fn rank_anew(
    turns: &Turns,
    messages: &mut Keyed<Ranked>,
    candidates: &mut Candidates,
    stale: &mut Option<Id>,
) -> u64
    requires room { candidates.old.room ≡ turns.now.room }
    requires tied { AreTied turns.now.suspended candidates.old.suspended }
    requires kept { AreKept turns.now.lines turns.now.peers (values_of messages.old.items)
        stale.old candidates.old.items }
    ensures room { candidates.new.room ≡ candidates.old.room }
    ensures tied { AreTied turns.now.suspended candidates.new.suspended }
    ensures kept { AreKept turns.now.lines turns.now.peers (values_of messages.new.items)
        stale.new candidates.new.items }
    ensures ranked { messages.new ≡ record messages.old { items = anew 0 messages.old.items } }
    ensures few { result ≡ length messages.old.items }
{
    messages.stand_apart();
    let mut rank = 0;
    let mut at = messages.first();
    while let Some(number) = at {
        rank_one(turns, messages, candidates, stale, number, rank);
        messages.stand_apart();
        rank += 1;
        at = messages.next(number);
    }
    rank
}

/// The rank of the next message, which was to be this one: where that is the greatest number there
/// is, all messages are ranked anew.
pub(crate) fn next_rank(
    turns: &Turns,
    messages: &mut Keyed<Ranked>,
    candidates: &mut Candidates,
    stale: &mut Option<Id>,
    next: u64,
) -> u64
    requires room { candidates.old.room ≡ turns.now.room }
    requires tied { AreTied turns.now.suspended candidates.old.suspended }
    requires kept { AreKept turns.now.lines turns.now.peers (values_of messages.old.items)
        stale.old candidates.old.items }
    requires ranked { AreRanked next (values_of messages.old.items) }
    ensures room { candidates.new.room ≡ candidates.old.room }
    ensures tied { AreTied turns.now.suspended candidates.new.suspended }
    ensures kept { AreKept turns.now.lines turns.now.peers (values_of messages.new.items)
        stale.new candidates.new.items }
    ensures ranked { AreRanked result (values_of messages.new.items) }
    ensures few { result + 1 < 2 ^ 64 }
    ensures messages { messages_of (values_of messages.new.items)
        ≡ messages_of (values_of messages.old.items) }
    ensures message_room { messages.new.room ≡ messages.old.room }
{
    if next < u64::MAX {
        return next;
    }
    messages.stand_apart();
    rank_anew(turns, messages, candidates, stale)
}
