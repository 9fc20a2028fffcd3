//! The candidate that preempts.
ghost use Rattle.std.specs.Prelude.{◌≡◌, ◌+◌};
ghost use Rattle.std.specs.Option.{option_copied};
ghost use Rattle.q_candidates.specs.Candidates.{IsBest};
ghost use Rattle.q_candidates.specs.Choosing.{better_of, goes_first_at, is_over, IsBestOf, IsNextHope};
ghost use Rattle.q_candidates.specs.Sound.{IsLaid, IsOrdered};
ghost use Rattle.q_candidates.specs.Suspending.{HaveNoSpace};
ghost use Rattle.q_candidates.specs.Walking.{AreShut, is_wanted};

use crate::arrivals::greatest_age;
use crate::candidate::{Candidate, weight};
use crate::candidates::Candidates;
use crate::index::Index;
use crate::walking::first_wanted;
use crate::wanted::Wanted;
use q_dest::Sites;
use q_keyed::Keyed;
use q_model::{Id, Moment};

/// The number of the best candidate that is wanted. Of one need the oldest is the best; those that
/// came now or later are of one age, and of them the one admitted first is.
fn best_wanted(
    candidates: &Keyed<Candidate>,
    index: &Index,
    wanted: &Wanted,
    now: Moment,
    sites: &Sites,
) -> Option<u32>
    requires ordered { IsOrdered candidates.now index.now }
    requires shut { AreShut sites.now.items index.now.lanes.items }
    ensures { IsBestOf now (is_wanted sites.now.items wanted.now) candidates.now.items result }
{
    candidates.stand_apart();
    index.lanes.stand_apart();
    let oldest = first_wanted(&index.ages, candidates, wanted, sites)?;
    let candidate = candidates.get(oldest.item)?;
    if candidate.arrival < now {
        return Some(oldest.item);
    }
    let first = first_wanted(&index.ranks, candidates, wanted, sites)?;
    Some(first.item)
}

/// Whether the candidate of one number goes before that of another.
fn goes_first_at(candidates: &Keyed<Candidate>, now: Moment, a: u32, b: u32) -> bool
    ensures { result ≡ goes_first_at candidates.now.items now a b }
{
    match (candidates.get(a), candidates.get(b)) {
        (Some(a), Some(b)) => a.goes_first(b, now),
        _ => false,
    }
}

/// The number of the one that goes first.
fn better_of(
    candidates: &Keyed<Candidate>,
    now: Moment,
    a: Option<u32>,
    b: Option<u32>,
) -> Option<u32>
    ensures { result ≡ better_of candidates.now.items now a b }
{
    match (a, b) {
        (Some(a), Some(b)) => Some(if goes_first_at(candidates, now, b, a) {
            b
        } else {
            a
        }),
        (Some(a), None) => Some(a),
        (None, b) => b,
    }
}

/// What is looked for beside a need.
#[derive(Clone, Copy, Debug)]
struct Reach {
    transport: u8,
    most: u64,
    moment: Moment,
    /// An age that no candidate of the transport passes.
    age: u64,
}

/// Whether no candidate that needs so many deliveries or more goes before the best one so far,
/// since even the oldest of all would not.
fn is_over(candidates: &Keyed<Candidate>, best: Option<u32>, reach: &Reach, from: u64) -> bool
    ensures { result ≡ is_over candidates.now.items reach.now.moment reach.now.age best from }
{
    let Some(number) = best else {
        return false;
    };
    match candidates.get(number) {
        Some(best) => {
            let own = weight(reach.moment.saturating_sub(best.arrival), from);
            weight(reach.age, best.need) < own
        }
        None => false,
    }
}

/// The next need behind this one of which a candidate may go before the best one so far.
fn next_hope(
    candidates: &Keyed<Candidate>,
    index: &Index,
    best: Option<u32>,
    reach: &Reach,
    behind: u64,
) -> Option<u64>
    requires { IsLaid index.now }
    ensures { IsNextHope candidates.now.items reach.now.moment reach.now.age reach.now.transport
        (behind + 1) reach.now.most index.now.lanes.items best result }
{
    if behind >= reach.most {
        return None;
    }
    let from = behind + 1;
    if is_over(candidates, best, reach, from) {
        None
    } else {
        index.next_need(reach.transport, from, reach.most)
    }
}

impl Candidates {
    /// The best of the candidates of the transport that need so many deliveries at most, are of
    /// another message than this one and whose sites have space. Sites that are suspended are passed
    /// without a step, and have none.
    pub fn best(
        &self,
        transport: u8,
        most: u64,
        now: Moment,
        except: Id,
        sites: &Sites,
    ) -> Option<&Candidate>
        requires { HaveNoSpace sites.now.items self.now.suspended }
        ensures { IsBest sites.now.items transport most now except self.now.items
            (option_copied result) }
    {
        self.candidates.stand_apart();
        self.index.lanes.stand_apart();
        let reach = Reach {
            transport,
            most,
            moment: now,
            age: greatest_age(&self.arrivals, &self.candidates, transport, now),
        };
        let mut best = None;
        let mut at = self.index.next_need(transport, 0, most);
        while let Some(need) = at {
            let wanted = Wanted {
                transport,
                need,
                except,
            };
            let own = best_wanted(&self.candidates, &self.index, &wanted, now, sites);
            best = better_of(&self.candidates, now, best, own);
            at = next_hope(&self.candidates, &self.index, best, &reach, need);
        }
        self.candidates.get(best?)
    }
}
