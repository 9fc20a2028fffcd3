//! The first peer of a round whose site has space.
ghost use Rattle.std.specs.Prelude.{◌≡◌, ◌<◌, [], find, get_or, length};
ghost use Rattle.q_rounds.specs.Listing.{space_in};
ghost use Rattle.q_rounds.specs.Walking.{can_start, IsFirst};

use crate::peer::Peer;
use q_chains::Chains;
use q_dest::Sites;
use q_keyed::Keyed;
use q_sorted::{Sorted, Ticket};

/// Whether the site of the peer under a number has space.
fn has_space(peers: &Keyed<Peer>, number: u32, sites: &Sites) -> bool
    ensures { result ≡ space_in sites.now.items peers.now.items number }
{
    match peers.get(number) {
        Some(peer) => sites.has_space(&peer.site),
        None => false,
    }
}

/// The first number of the list whose peer's site has space.
pub(crate) fn first_fresh(
    fresh: &Chains,
    peers: &Keyed<Peer>,
    list: u32,
    sites: &Sites,
) -> Option<u32>
    requires { list < length fresh.now.lists }
    ensures { result ≡ find (space_in sites.now.items peers.now.items)
        (get_or fresh.now.lists list []) }
{
    let mut at = fresh.first(list);
    while let Some(number) = at {
        if has_space(peers, number, sites) {
            return Some(number);
        }
        at = fresh.next(number);
    }
    None
}

/// The first ticket of the round whose peer's site has space.
pub(crate) fn first_ticket(
    tickets: &Sorted,
    peers: &Keyed<Peer>,
    round: u32,
    sites: &Sites,
) -> Option<Ticket>
    ensures { IsFirst (can_start sites.now.items peers.now.items round) tickets.now.items result }
{
    let mut at = tickets.first_of(round);
    while let Some(ticket) = at {
        if ticket.group != round {
            return None;
        }
        if has_space(peers, ticket.item, sites) {
            return Some(ticket);
        }
        at = tickets.behind(&ticket);
    }
    None
}
