//! The first candidate of a need that may be sent to now.
ghost use Rattle.std.specs.Prelude.{◌≡◌, List, ℕ};
ghost use Rattle.q_candidates.specs.declared.candidate.Candidate.{Candidate};
ghost use Rattle.q_candidates.specs.declared.lane.Lane.{Lane};
ghost use Rattle.q_candidates.specs.Walking.{AreOrdered, AreShut, first_in_lane, is_past, is_wanted, IsFoundBy, nearer};
ghost use Rattle.q_keyed.specs.Numbered.{Numbered};

use crate::candidate::Candidate;
use crate::lane::class_for;
use crate::wanted::Wanted;
use q_dest::Sites;
use q_heads::Heads;
use q_keyed::Keyed;
use q_sorted::Ticket;

/// The first ticket of the head's lane that is wanted. A message has one candidate at a site, so
/// the one behind that of the message that is left out is of another.
fn first_in_lane(
    heads: &Heads,
    candidates: &Keyed<Candidate>,
    head: &Ticket,
    wanted: &Wanted,
    sites: &Sites,
) -> Option<Ticket>
    ensures { result ≡ first_in_lane sites.now.items wanted.now candidates.now.items
        heads.now.items head.now }
{
    let candidate = candidates.get(head.item)?;
    if !wanted.is_open(candidate, sites) {
        return None;
    }
    if candidate.id == wanted.except {
        heads.behind_in_lane(head)
    } else {
        Some(*head)
    }
}

/// The one with the lesser key.
fn nearer(a: Option<Ticket>, b: Option<Ticket>) -> Option<Ticket>
    ensures { result ≡ nearer a b }
{
    match (a, b) {
        (Some(a), Some(b)) => Some(if b.key < a.key { b } else { a }),
        (Some(a), None) => Some(a),
        (None, b) => b,
    }
}

/// Whether what was found has no greater key than the head, and so none than all behind it.
fn is_past(found: Option<Ticket>, head: &Ticket) -> bool
    ensures { result ≡ is_past found head.now }
{
    match found {
        Some(found) => found.key <= head.key,
        None => false,
    }
}

/// Of the candidates that are wanted one with the least key. The walk passes lanes whose sites are
/// full, and those of the message that is left out.
pub(crate) fn first_wanted(
    heads: &Heads,
    candidates: &Keyed<Candidate>,
    wanted: &Wanted,
    sites: &Sites,
) -> Option<Ticket>
    ensures { (key : Candidate → ℕ) (lanes : List (Numbered Lane))
        → AreOrdered key lanes candidates.now.items heads.now → AreShut sites.now.items lanes
        → IsFoundBy key (is_wanted sites.now.items wanted.now) candidates.now.items result }
{
    heads.stand_sorted();
    let mut found = None;
    let mut at = heads.first(class_for(false, wanted.transport, wanted.need));
    while let Some(head) = at {
        if is_past(found, &head) {
            return found;
        }
        let own = first_in_lane(heads, candidates, &head, wanted, sites);
        found = nearer(found, own);
        at = heads.behind(&head);
    }
    found
}
