//! The message that preempts.
ghost use Rattle.std.specs.Prelude.{◌≡◌, ◌&&◌, nat_le, not, option_map};
ghost use Rattle.q_keyed.specs.Numbered.{values_of};
ghost use Rattle.q_schedule.specs.Best.{IsOwn, sooner};
ghost use Rattle.q_model.specs.Ids.{id_eq};
ghost use Rattle.q_schedule.specs.Schedule.{best_in};
ghost use Rattle.q_turns.specs.Filing.{is_fresh};
ghost use Rattle.q_turns.specs.Suspending.{HaveNoSpace};

use crate::lines::is_fresh;
use crate::messages::message;
use crate::ranked::Ranked;
use crate::schedule::Schedule;
use q_candidates::Candidate;
use q_dest::Sites;
use q_keyed::Keyed;
use q_model::{Id, Moment};
use q_turns::Turns;

/// What is looked for.
#[derive(Clone, Copy, Debug)]
struct Wanted {
    transport: u8,
    /// The most deliveries that may be needed.
    most: u64,
    except: Id,
}

/// Whether it began no delivery there, needs few enough, and isn't the one that is left out.
fn is_wanted(turns: &Turns, wanted: &Wanted, id: Id, need: u64) -> bool
    ensures { result ≡ (is_fresh turns.now.lines wanted.now.transport id
        && nat_le need wanted.now.most && not (id_eq id wanted.now.except)) }
{
    is_fresh(turns, usize::from(wanted.transport), id) && need <= wanted.most && id != wanted.except
}

/// The candidate of the stale message, where it may preempt, at the site that it is sent to next.
fn own(
    turns: &Turns,
    messages: &Keyed<Ranked>,
    stale: Option<Id>,
    wanted: &Wanted,
    sites: &Sites,
) -> Option<Candidate>
    ensures { IsOwn sites.now.items turns.now.lines turns.now.peers (values_of messages.now.items)
        stale wanted.now.transport wanted.now.most wanted.now.except result }
{
    let id = stale?;
    let ranked = message(messages, id)?;
    let at = usize::from(wanted.transport);
    let next = turns.next(at, id, sites)?;
    let need = turns.rows_left(id, at) + u64::from(ranked.message.unread);
    if !is_wanted(turns, wanted, id, need) {
        return None;
    }
    Some(Candidate {
        id,
        site: next.site,
        need,
        arrival: ranked.message.arrival,
        rank: ranked.rank,
    })
}

/// The one of both that goes first.
fn sooner(now: Moment, a: Option<Candidate>, b: Option<Candidate>) -> Option<Candidate>
    ensures { result ≡ sooner now a b }
{
    match (a, b) {
        (Some(a), Some(b)) => Some(if b.goes_first(&a, now) { b } else { a }),
        (Some(a), None) => Some(a),
        (None, b) => b,
    }
}

impl Schedule {
    /// The message that preempts another one at the transport: of those that began no delivery
    /// there, can be sent to and need so many deliveries at most the one with the greatest
    /// (age + 1) / need; of equals the one admitted first. Sites that are suspended are passed without
    /// a step.
    pub fn best(
        &self,
        transport: u8,
        most: u64,
        now: Moment,
        except: Id,
        sites: &Sites,
    ) -> Option<Id>
        requires { HaveNoSpace sites.now.items self.now.suspended }
        ensures { result ≡ option_map (λ m. m.id) (best_in sites.now.items self.now.lines
            self.now.peers transport most now except self.now.messages) }
    {
        self.turns.stand_apart();
        self.messages.stand_apart();
        self.candidates.stand_apart();
        let wanted = Wanted {
            transport,
            most,
            except,
        };
        let kept = self.candidates.best(transport, most, now, except, sites);
        let own = own(&self.turns, &self.messages, self.stale, &wanted, sites);
        let best = sooner(now, kept.copied(), own)?;
        Some(best.id)
    }
}
