//! A delivery in flight ends.
ghost use Rattle.std.specs.Prelude.{◌≡◌, ◌≤◌, ◌+◌, ◌++◌, ◌==◌, filter, find, IfSome, IsTrue, length, not, Some, true};
ghost use Rattle.q_core.specs.Agrees.{FollowsAllowed};
ghost use Rattle.q_core.specs.Changes.{is_looked_at, left_sites, with_sites};
ghost use Rattle.std.specs.List.{list_all};
ghost use Rattle.q_core.specs.Hearing.{has_log_code};
ghost use Rattle.q_core.specs.Needs.{needs_in};
ghost use Rattle.q_core.specs.Queries.{flight_in};
ghost use Rattle.q_core.specs.UsedSites.{busy_in};
ghost use Rattle.q_flights.specs.Flying.{has_number};
ghost use Rattle.q_model.specs.declared.rows.Delivery.{Delivery as DeliveryOf};
ghost use Rattle.q_core.specs.Leaving.{AreAdded, IsSiteHeard, IsLanded};

use crate::counting::{end_flight, gain_unsettled};
use crate::dead_rows::hold_at;
use crate::needs::add_needs;
use crate::state::Core;
use crate::suspending::suspend_at;
use q_flights::Flights;
use q_model::{Entry, Outcome, Site, SiteState, Unsettled};
use q_queue::Queue;

/// Adds what the outcomes of the delivery of this number need.
fn add_needs_of(
    unsettled: &mut Queue<Unsettled>,
    flights: &Flights,
    number: u64,
    expired: bool,
    outcomes: &[Outcome],
)
    requires { (f : DeliveryOf) → find (has_number number) flights.now.items ≡ Some f
        → length unsettled.old.items + length f.row.positions ≤ unsettled.old.room }
    ensures { (f : DeliveryOf) → find (has_number number) flights.now.items ≡ Some f
        → unsettled.new ≡ record unsettled.old {
          items = unsettled.old.items
              ++ needs_in expired f.row.id f.row.positions outcomes.now;
        } }
{
    if let Some(delivery) = flights.get(number) {
        let row = delivery.row;
        add_needs(unsettled, row.id, expired, row.positions, outcomes);
    }
}

impl Core {
    /// Adds what the outcomes of the delivery of this number need, and gives its site. Nothing is
    /// done where they have no space, which is so in no ledger.
    fn add_outcomes(&mut self, number: u64, outcomes: &[Outcome]) -> Option<Site>
        requires { list_all has_log_code outcomes.now ≡ true }
        ensures added { AreAdded self.old self.new number outcomes.now result }
        ensures busy { IfSome result (λ site. 1 ≤ busy_in self.new.flights site) }
        ensures timed { self.new.timed ≡ self.old.timed }
    {
        let Some(delivery) = self.delivery(number) else {
            return None;
        };
        let row = delivery.row;
        if !self.has_space(row.positions) {
            return None;
        }
        let (id, site) = (row.id, *row.site);
        let recipients = row.positions.len();
        let expired = self.id_expired(id);
        let before = self.unsettled.len();
        add_needs_of(
            &mut self.unsettled,
            &self.flights,
            number,
            expired,
            outcomes,
        );
        self.unsettled.stand_within();
        let needs = self.unsettled.len().saturating_sub(before);
        let done = recipients.saturating_sub(needs);
        gain_unsettled(&mut self.admitted, id, needs as u64);
        self.in_memory = self.in_memory.saturating_sub(done as u64);
        Some(site)
    }

    /// Lets the site hear of a delivery that is still in flight. Its rows are held back where it
    /// died, and it is suspended for as long as it rests.
    fn hear_site(&mut self, site: &Site, state: SiteState)
        requires { 1 ≤ busy_in self.old.flights site.now }
        ensures { IsSiteHeard self.old self.new site.now state }
    {
        let moment = self.clock.seconds;
        self.sites.stand_apart();
        let was_dead = self.sites.is_dead(site);
        self.sites.hear(site, &self.params, moment, state);
        let is_dead = self.sites.is_dead(site);
        hold_at(&mut self.waiting, site, was_dead, is_dead);
        suspend_at(&mut self.schedule, &self.sites, site);
    }

    /// The delivery of this number is over. Where nothing goes to its site any more, the site is
    /// forgotten, or goes behind the others if it is dead.
    fn land(&mut self, number: u64)
        ensures landed { IsLanded self.old (with_sites self.old.sites self.new) number }
        ensures left { (f : DeliveryOf) → flight_in self.old number ≡ Some f
            → self.new.sites ≡ left_sites self.new self.old.sites f.row.site }
        ensures timed { self.new.timed ≡ self.old.timed }
    {
        self.flights.stand_apart();
        let Some(delivery) = self.flights.get(number) else {
            return;
        };
        let (id, site) = (delivery.row.id, *delivery.row.site);
        let _ = self.flights.remove(number);
        self.sites.stand_apart();
        self.sites.land(&site);
        end_flight(&mut self.admitted, id);
    }

    /// Takes the reply of the delivery of this number, with an outcome for each recipient.
    pub(crate) fn hear_reply(&mut self, number: u64, state: SiteState, outcomes: &[Outcome])
        requires codes { list_all has_log_code outcomes.now ≡ true }
        requires seen { IsTrue (is_looked_at self.old) }
        ensures exact { FollowsAllowed self.old self.new (Entry.Reply number state outcomes.now) }
        ensures timed { self.new.timed ≡ self.old.timed }
    {
        let Some(site) = self.add_outcomes(number, outcomes) else {
            return;
        };
        self.hear_site(&site, state);
        self.land(number);
        self.tidy();
    }
}
