//! Tickets move, as jobs get other ranks.
ghost use Rattle.std.specs.Prelude.{◌≡◌, ◌<◌, ◌==◌, ◌&&◌, ◌^◌, IfSome, length, not, true};
ghost use Rattle.std.specs.Option.{is_some};
ghost use Rattle.q_heads.specs.Lanes.{class_of, is_the, stands};
ghost use Rattle.q_heads.specs.Marks.{with_mark};
ghost use Rattle.q_sorted.specs.declared.ticket.Ticket.{Ticket};
ghost use Rattle.q_rounds.specs.Listing.{AreTickets};
ghost use Rattle.q_turns.specs.Heading.{head_at, message_at, rank_at, rank_by, ranked_before, ranked_elsewhere};
ghost use Rattle.q_turns.specs.Moving.{job_head, missing_head, moved_head, with_key};
ghost use Rattle.q_turns.specs.Sound.{AreLaned};
ghost use Rattle.q_turns.specs.Suspending.{transport_of};

use crate::heading::{head_of, is_of_message, is_peer_for, least_of};
use crate::lane::Lane;
use crate::laning::{class_in, put_in};
use q_heads::Heads;
use q_jobs::Line;
use q_keyed::Keyed;
use q_model::Id;
use q_rounds::Rounds;
use q_sorted::{Sorted, Ticket};

/// Takes all tickets of the class out.
fn take_class_out(heads: &mut Heads, class: u32)
    ensures rest { heads.new ≡ record heads.old { items = heads.new.items } }
    ensures gone { (x : Ticket) → stands x heads.new.items ≡ (stands x heads.old.items
        && not (class_of x.group heads.old.classes == class)) }
{
    while let Some(head) = heads.first(class) {
        heads.remove(&head);
    }
    heads.stand_sorted();
}

/// Takes all tickets of the transport out.
fn take_all_out(heads: &mut Heads, transport: u32)
    requires { transport < 2 ^ 8 }
    ensures rest { heads.new ≡ record heads.old { items = heads.new.items } }
    ensures gone { (x : Ticket) → stands x heads.new.items ≡ (stands x heads.old.items
        && not (transport_of (class_of x.group heads.old.classes) == transport)) }
{
    take_class_out(heads, class_in(false, transport));
    take_class_out(heads, class_in(true, transport));
}

/// Puts the ticket of the peer in, where it is at the transport.
fn put_one_in(
    heads: &mut Heads,
    lines: &Vec<Line>,
    lanes: &Keyed<Lane>,
    peers: &Rounds,
    transport: usize,
    number: u32,
)
    requires room { IfSome (missing_head transport lines.now.items lanes.now.items
        peers.now.items number) (λ _. length heads.old.items < heads.old.room) }
    requires known { IfSome (missing_head transport lines.now.items lanes.now.items
        peers.now.items number) (λ e. e.group < heads.old.lanes) }
    ensures { heads.new ≡ record heads.old {
      items = with_mark (missing_head transport
          lines.now.items lanes.now.items peers.now.items number) heads.old.items;
    } }
{
    let Some(peer) = peers.get(number) else {
        return;
    };
    if usize::from(peer.site.transport) == transport {
        put_in(heads, head_of(lines, lanes, number, peer));
    }
}

/// Puts the tickets of all peers at the transport in.
pub(crate) fn put_all_in(
    heads: &mut Heads,
    lines: &Vec<Line>,
    lanes: &Keyed<Lane>,
    peers: &Rounds,
    transport: usize,
)
    requires room { heads.old.room ≡ peers.now.room }
    requires laned { AreLaned lanes.now.items heads.old }
    requires placed { AreTickets (head_at (ranked_elsewhere transport lines.now.items)
        lanes.now.items peers.now.items) heads.old.items }
    ensures rest { heads.new ≡ record heads.old { items = heads.new.items } }
    ensures placed { AreTickets (head_at (rank_by lines.now.items) lanes.now.items
        peers.now.items) heads.new.items }
{
    peers.stand_apart();
    lanes.stand_apart();
    let mut at = peers.first();
    while let Some(number) = at {
        heads.stand_sorted();
        put_one_in(heads, lines, lanes, peers, transport, number);
        at = peers.next(number);
    }
}

/// Puts the tickets of all peers at the transport where the ranks of its jobs say now, after all
/// were ranked anew.
pub(crate) fn place_anew(
    heads: &mut Heads,
    lines: &Vec<Line>,
    lanes: &Keyed<Lane>,
    peers: &Rounds,
    transport: usize,
)
    requires few { transport < 2 ^ 8 }
    requires room { heads.old.room ≡ peers.now.room }
    requires laned { AreLaned lanes.now.items heads.old }
    requires elsewhere { (x : Ticket)
        → (transport_of (class_of x.group heads.old.classes) ≡ transport → ⊥) → stands x heads.old.items ≡ is_the x (head_at (ranked_elsewhere transport
        lines.now.items) lanes.now.items peers.now.items x.item) }
    ensures rest { heads.new ≡ record heads.old { items = heads.new.items } }
    ensures placed { AreTickets (head_at (rank_by lines.now.items) lanes.now.items
        peers.now.items) heads.new.items }
{
    lanes.stand_apart();
    take_all_out(heads, transport as u32);
    put_all_in(heads, lines, lanes, peers, transport);
}

/// Moves the ticket of the peer from this rank to that of its job, where it is of the message at
/// the transport.
fn move_one(
    heads: &mut Heads,
    lines: &Vec<Line>,
    lanes: &Keyed<Lane>,
    peers: &Rounds,
    number: u32,
    id: Id,
    transport: usize,
    from: u64,
)
    requires { IfSome (job_head id transport lines.now.items lanes.now.items peers.now.items number)
        (λ e. stands (with_key from e) heads.old.items ≡ true) }
    ensures { heads.new ≡ record heads.old {
      items = moved_head from (job_head id transport
          lines.now.items lanes.now.items peers.now.items number) heads.old.items;
    } }
{
    heads.stand_sorted();
    let Some(peer) = peers.get(number) else {
        return;
    };
    if !is_peer_for(peer, id, transport) {
        return;
    }
    let Some(head) = head_of(lines, lanes, number, peer) else {
        return;
    };
    let old = Ticket {
        key: u128::from(from),
        group: head.group,
        item: head.item,
    };
    heads.remove(&old);
    heads.insert(head);
}

/// Moves the tickets of the message's peers at the transport from the rank that its job had.
pub(crate) fn move_job(
    heads: &mut Heads,
    lines: &Vec<Line>,
    lanes: &Keyed<Lane>,
    peers: &Rounds,
    messages: &Sorted,
    id: Id,
    transport: usize,
    from: u64,
)
    requires listed { AreTickets (message_at peers.now.items) messages.now.items }
    requires ranked { is_some (rank_at lines.now.items transport id) ≡ true }
    requires placed { AreTickets (head_at (ranked_before id transport from lines.now.items)
        lanes.now.items peers.now.items) heads.old.items }
    ensures rest { heads.new ≡ record heads.old { items = heads.new.items } }
    ensures placed { AreTickets (head_at (rank_by lines.now.items) lanes.now.items
        peers.now.items) heads.new.items }
{
    let mut at = messages.first_from(&least_of(id));
    while let Some(ticket) = at {
        if !is_of_message(&ticket, id) {
            return;
        }
        move_one(heads, lines, lanes, peers, ticket.item, id, transport, from);
        at = messages.behind(&ticket);
    }
}
