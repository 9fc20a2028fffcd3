//! The candidates of a transport, by their arrival.
ghost use Rattle.std.specs.Prelude.{◌≡◌, ◌≤◌, Some, ℕ};
ghost use Rattle.q_candidates.specs.declared.candidate.Candidate.{Candidate};
ghost use Rattle.q_candidates.specs.Candidates.{age_at};
ghost use Rattle.q_candidates.specs.Filing.{arrival_at, arrival_ticket};
ghost use Rattle.q_keyed.specs.Numbered.{item_at};
ghost use Rattle.q_rounds.specs.Listing.{AreTickets};

use crate::candidate::Candidate;
use q_keyed::Keyed;
use q_model::Moment;
use q_sorted::{Sorted, Ticket};

/// The ticket of a candidate among those of its transport.
pub(crate) fn arrival_ticket(number: u32, candidate: &Candidate) -> Ticket
    ensures { result ≡ arrival_ticket number candidate.now }
{
    Ticket {
        key: u128::from(candidate.arrival),
        group: u32::from(candidate.site.transport),
        item: number,
    }
}

/// An age that none of the transport's candidates passes: that of the oldest.
pub(crate) fn greatest_age(
    arrivals: &Sorted,
    candidates: &Keyed<Candidate>,
    transport: u8,
    now: Moment,
) -> u64
    requires { AreTickets (arrival_at candidates.now.items) arrivals.now.items }
    ensures { (n : ℕ) (c : Candidate) → item_at n candidates.now.items ≡ Some c
        → c.site.transport ≡ transport → age_at now c ≤ result }
{
    let Some(first) = arrivals.first_of(u32::from(transport)) else {
        return 0;
    };
    match candidates.get(first.item) {
        Some(oldest) => now.saturating_sub(oldest.arrival),
        None => 0,
    }
}
