//! The tickets of peers.
ghost use Rattle.std.specs.Prelude.{◌≡◌};
ghost use Rattle.q_turns.specs.Heading.{head_in, is_of_message, least_of, message_ticket, rank_at, rank_by, sent_in};
ghost use Rattle.q_rounds.specs.Rounds.{is_peer_for};

use crate::lane::Lane;
use q_dest::Sites;
use q_jobs::Line;
use q_keyed::Keyed;
use q_model::Id;
use q_rounds::{Peer, Rounds};
use q_sorted::Ticket;

/// The rank of the message's job at the transport.
pub(crate) fn rank_at(lines: &Vec<Line>, transport: usize, id: Id) -> Option<u64>
    ensures { result ≡ rank_at lines.now.items transport id }
{
    let line = lines.get(transport)?;
    line.rank(id)
}

/// The ticket of a peer in the lane of its site, where there is one and its job has a rank.
pub(crate) fn head_of(
    lines: &Vec<Line>,
    lanes: &Keyed<Lane>,
    number: u32,
    peer: &Peer,
) -> Option<Ticket>
    ensures { result ≡ head_in (rank_by lines.now.items) lanes.now.items number peer.now }
{
    let lane = lanes.find(&peer.site)?;
    let rank = rank_at(lines, usize::from(peer.site.transport), peer.id)?;
    Some(Ticket {
        key: u128::from(rank),
        group: lane,
        item: number,
    })
}

/// The ticket of a peer among those of its message.
pub(crate) fn message_ticket(peer: &Peer, number: u32) -> Ticket
    ensures { result ≡ message_ticket number peer.now }
{
    Ticket {
        key: u128::from(peer.id.generation),
        group: peer.id.serial,
        item: number,
    }
}

/// What no ticket of the message goes before.
pub(crate) fn least_of(id: Id) -> Ticket
    ensures { result ≡ least_of id }
{
    Ticket {
        key: u128::from(id.generation),
        group: id.serial,
        item: 0,
    }
}

/// Whether the ticket is of a message with these numbers: this one, or its bounce.
pub(crate) fn is_of_message(ticket: &Ticket, id: Id) -> bool
    ensures { result ≡ is_of_message (least_of id) ticket.now }
{
    ticket.group == id.serial && ticket.key == u128::from(id.generation)
}

/// Whether the peer is of the message, at the transport.
pub(crate) fn is_peer_for(peer: &Peer, id: Id, transport: usize) -> bool
    ensures { result ≡ is_peer_for id transport peer.now }
{
    peer.id == id && usize::from(peer.site.transport) == transport
}

/// The message of the peer, where its site has space.
pub(crate) fn sent_in(peers: &Rounds, number: u32, sites: &Sites) -> Option<Id>
    ensures { result ≡ sent_in sites.now.items number peers.now.items }
{
    let peer = peers.get(number)?;
    if sites.has_space(&peer.site) {
        Some(peer.id)
    } else {
        None
    }
}
