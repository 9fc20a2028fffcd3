//! Numbers of peers in the lists of rounds, and tickets of peers.
ghost use Rattle.std.specs.Prelude.{◌≡◌, ◌<◌, false, IfSome, length};
ghost use Rattle.q_chains.specs.Lists.{stands};
ghost use Rattle.q_heads.specs.Marks.{with_mark, without};
ghost use Rattle.q_rounds.specs.Listing.{enlisted, list_in, ticket_in};

use crate::peer::Peer;
use q_chains::Chains;
use q_sorted::{Sorted, Ticket};

/// The list of a peer that is of a round, while the message wasn't sent to its site.
pub(crate) fn list_in(round: Option<u32>, peer: &Peer) -> Option<u32>
    ensures { result ≡ list_in round peer.now }
{
    if peer.last > 0 { None } else { round }
}

/// The ticket of a peer that is of a round, where the message was sent to its site.
pub(crate) fn ticket_in(round: Option<u32>, number: u32, peer: &Peer) -> Option<Ticket>
    ensures { result ≡ ticket_in round number peer.now }
{
    if peer.last == 0 {
        return None;
    }
    let group = round?;
    Some(Ticket {
        key: u128::from(peer.last),
        group,
        item: number,
    })
}

/// Puts the number at the end of the list, where there is one.
pub(crate) fn enlist(fresh: &mut Chains, list: Option<u32>, number: u32)
    requires list { IfSome list (λ b. b < length fresh.old.lists) }
    requires known { number < fresh.old.numbers }
    requires free { stands number fresh.old.lists ≡ false }
    ensures { fresh.new ≡ record fresh.old { lists = enlisted list number fresh.old.lists } }
{
    if let Some(list) = list {
        fresh.push(list, number);
    }
}

/// Puts the ticket in, where there is one.
pub(crate) fn put_in(tickets: &mut Sorted, ticket: Option<Ticket>)
    requires { IfSome ticket (λ _. length tickets.old.items < tickets.old.room) }
    ensures { tickets.new ≡ record tickets.old { items = with_mark ticket tickets.old.items } }
{
    if let Some(ticket) = ticket {
        tickets.insert(ticket);
    }
}

/// Takes the ticket out, where there is one.
pub(crate) fn take_out(tickets: &mut Sorted, ticket: Option<Ticket>)
    ensures { tickets.new ≡ record tickets.old { items = without ticket tickets.old.items } }
{
    if let Some(ticket) = ticket {
        tickets.remove(&ticket);
    }
}
