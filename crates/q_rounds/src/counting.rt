//! How many rows of each job wait, and how many peers are passed.
ghost use Rattle.std.specs.Prelude.{◌≡◌, ◌≤◌, ◌<◌, ◌+◌, ◌-◌, ◌^◌, if◌then◌else◌, length, None};
ghost use Rattle.q_rounds.specs.Jobs.{HasSet, round_at, round_of, rows_in};

use crate::peer::Peer;
use crate::round::{Round, RoundKey};
use q_keyed::Keyed;
use q_model::Id;

/// How many rows of the message wait at the transport.
pub(crate) fn rows_in(rounds: &Keyed<Round>, id: Id, transport: usize) -> u64
    ensures { result ≡ rows_in id transport rounds.now.items }
{
    let Some(number) = rounds.find(&RoundKey { id, transport }) else {
        return 0;
    };
    match rounds.get(number) {
        Some(round) => round.waiting,
        None => 0,
    }
}

/// The number of the peer's round.
pub(crate) fn round_of(rounds: &Keyed<Round>, peer: &Peer) -> Option<u32>
    ensures { result ≡ round_of rounds.now.items peer.now }
{
    rounds.find(&RoundKey {
        id: peer.id,
        transport: usize::from(peer.site.transport),
    })
}

/// Lets so many rows of the message wait at the transport. A round comes with the first row, and
/// goes with the last.
fn set_rows(rounds: &mut Keyed<Round>, id: Id, transport: usize, rows: u64)
    requires room { round_at id transport rounds.old.items ≡ None
        → length rounds.old.items < rounds.old.room }
    ensures rest { rounds.new ≡ record rounds.old { items = rounds.new.items } }
    ensures set { HasSet id transport rows rounds.old.room rounds.old.items rounds.new.items }
{
    let round = Round {
        id,
        transport,
        waiting: rows,
    };
    let Some(number) = rounds.find(&RoundKey { id, transport }) else {
        if rows == 0 {
            return;
        }
        let _number = rounds.push(round);
        return;
    };
    if rows == 0 {
        let _round = rounds.remove(number);
        return;
    }
    rounds.put(number, round);
}

/// A sum, as a part of it changes.
fn changed_sum(sum: u64, was: u32, is: u32) -> u64
    requires part { was ≤ sum }
    requires few { sum + is < 2 ^ 64 }
    ensures { result ≡ sum - was + is }
{
    sum - u64::from(was) + u64::from(is)
}

/// Lets so many rows of the peer's job wait in the place of so many.
pub(crate) fn change_rows(rounds: &mut Keyed<Round>, peer: &Peer, was: u32, is: u32)
    requires part { was ≤ rows_in peer.now.id peer.now.site.transport rounds.old.items }
    requires few { rows_in peer.now.id peer.now.site.transport rounds.old.items + is < 2 ^ 64 }
    requires room { round_of rounds.old.items peer.now ≡ None
        → length rounds.old.items < rounds.old.room }
    ensures rest { rounds.new ≡ record rounds.old { items = rounds.new.items } }
    ensures set { HasSet peer.now.id peer.now.site.transport
        (rows_in peer.now.id peer.now.site.transport rounds.old.items - was + is)
        rounds.old.room rounds.old.items rounds.new.items }
{
    let transport = usize::from(peer.site.transport);
    let rows = changed_sum(rows_in(rounds, peer.id, transport), was, is);
    set_rows(rounds, peer.id, transport, rows);
}

/// How many are counted, as one changes.
pub(crate) fn changed_count(count: u32, was: bool, is: bool) -> u32
    requires part { (if was then 1 else 0) ≤ count }
    requires few { count + 1 < 2 ^ 32 }
    ensures { result ≡ count - (if was then 1 else 0) + (if is then 1 else 0) }
{
    count - u32::from(was) + u32::from(is)
}
