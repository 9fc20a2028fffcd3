//! How candidates are found in order.
ghost use Rattle.std.specs.Prelude.{◌≡◌, ◌<◌, ◌≤◌, ◌*◌, ◌+◌, ◌^◌, [], IfOk};
ghost use Rattle.q_candidates.specs.Filing.{age_key, need_ticket, rank_key, site_ticket, ticket_with};
ghost use Rattle.q_candidates.specs.Sound.{IsFiled, IsLaid};

use crate::candidate::Candidate;
use crate::lane::{Lane, group_for};
use q_heads::Heads;
use q_keyed::Keyed;
use q_model::Moment;
use q_peers::site_hash;
use q_sorted::{Sorted, Ticket};
use std::alloc::{AllocError, Global};

/// The numbers of candidates in lanes, of which each has those of one site and need.
#[derive(Debug, Drop)]
pub(crate) struct Index {
    /// The lanes in which candidates stand, each with a number.
    pub(crate) lanes: Keyed<Lane>,
    /// In each lane by arrival, then by rank.
    pub(crate) ages: Heads,
    /// In each lane by rank, for those that came after the moment that is now.
    pub(crate) ranks: Heads,
    /// The lanes, by transport and then by need. Those that are suspended stand apart.
    pub(crate) needs: Sorted,
    /// The lanes, by the buckets of their sites.
    pub(crate) sites: Sorted,
}

/// As many as there are ranks.
const RANKS: u128 = 18_446_744_073_709_551_616;

/// One number for both, which grows with the arrival, and at one arrival with the rank.
fn age_key(arrival: Moment, rank: u64) -> u128
    ensures { result ≡ arrival * 2 ^ 64 + rank }
{
    u128::from(arrival) * RANKS + u128::from(rank)
}

/// The ticket of a candidate in its lane among the ages.
pub(crate) fn age_ticket(lane: u32, number: u32, candidate: &Candidate) -> Ticket
    ensures { result ≡ ticket_with age_key lane number candidate.now }
{
    Ticket {
        key: age_key(candidate.arrival, candidate.rank),
        group: lane,
        item: number,
    }
}

/// The ticket of a candidate in its lane among the ranks.
pub(crate) fn rank_ticket(lane: u32, number: u32, candidate: &Candidate) -> Ticket
    ensures { result ≡ ticket_with rank_key lane number candidate.now }
{
    Ticket {
        key: u128::from(candidate.rank),
        group: lane,
        item: number,
    }
}

/// The ticket of a lane among the needs.
pub(crate) fn need_ticket(number: u32, lane: &Lane) -> Ticket
    ensures { result ≡ need_ticket number lane.now }
{
    Ticket {
        key: u128::from(lane.need),
        group: group_for(lane.suspended, lane.site.transport),
        item: number,
    }
}

/// The ticket of a lane among those of its site.
pub(crate) fn site_ticket(number: u32, lane: &Lane) -> Ticket
    ensures { result ≡ site_ticket number lane.now }
{
    Ticket {
        key: u128::from(lane.need),
        group: site_hash(&lane.site),
        item: number,
    }
}

impl Index {
    /// No candidate, and room for so many.
    pub(crate) fn new(alloc: Global, room: u32) -> Result<Index, AllocError>
        requires some { 1 ≤ room }
        requires few { room < 2 ^ 30 }
        ensures laid { IfOk result IsLaid }
        ensures filed { IfOk result (IsFiled []) }
        ensures lanes { IfOk result (λ made. made.lanes ≡ record { items = []; room = room }) }
    {
        let lanes = Keyed::new(alloc, room)?;
        let ages = Heads::new(alloc, room, room)?;
        let ranks = Heads::new(alloc, room, room)?;
        let needs = Sorted::new(alloc, room)?;
        let sites = Sorted::new(alloc, room)?;
        Ok(Index {
            lanes,
            ages,
            ranks,
            needs,
            sites,
        })
    }
}
