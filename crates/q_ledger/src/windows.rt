//! How a site's window follows from replies, and when it is dead (SCHEDULER_README,
//! "Concurrency scheduling").
ghost use Rattle.std.specs.Prelude.{◌≡◌, ◌≤◌, ◌+◌, map, min, nat_lt, true};
ghost use Rattle.q_ledger.specs.Settled.{sites_heard, with_sites};
ghost use Rattle.q_ledger.specs.Windows.{down_in, heard_at, heard_in, is_too_much, more_cohorts_in, narrowed_in, open_window, up_in, widened_in};
ghost use Rattle.q_model.specs.Routes.{world_without_table};
ghost use Rattle.q_model.specs.Settings.{window_limit};
ghost use Rattle.q_model.specs.SiteRecords.{is_alive};
ghost use Rattle.q_model.specs.Windows.{rested};
ghost use Rattle.q_ledger.specs.Worlds.{world_of};

use crate::clock::Clock;
use crate::ids::same_site;
use crate::ledger::Ledger;
use crate::site_record::WideSiteRecord;
use crate::world::World;
use q_model::{Health, Moment, Site, SiteState};
use q_settings::Params;

/// A whole cohort, in parts that each window divides.
const PARTS: u64 = 5_342_931_457_063_200;

impl WideSiteRecord {
    /// The window, from 1 to 40.
    fn open_window(&self) -> u8
        ensures exact { result ≡ open_window self.now.window }
        ensures low { 1 ≤ result }
        ensures high { result ≤ 40 }
    {
        self.window.clamp(1, 40) as u8
    }

    /// Whether so many deliveries in flight fill the window.
    fn is_filled(&self, params: &Params, busy: u64) -> bool
        ensures { result ≡ nat_lt self.now.window
            (busy + min params.now.initial_concurrency (window_limit params.now)) }
    {
        let initial = params
            .initial_destination_concurrency
            .min(params.window_limit());
        u128::from(self.window) < u128::from(busy) + u128::from(initial)
    }

    /// Adds one success, which widens the window where it comes to 1.
    fn widen(&mut self, params: &Params)
        requires { self.old.window ≤ 40 }
        ensures { self.new ≡ widened_in params.now self.old }
    {
        let feedback = params.default_destination_concurrency_positive_feedback;
        let success = self.success + u128::from(feedback.amount(self.open_window()));
        let unit = u128::from(feedback.units());
        if success >= unit {
            self.window += 1;
            self.success = success - unit;
            self.failure = 0;
        } else {
            self.success = success;
        }
    }

    /// Hears that a delivery reached it, with so many in flight.
    fn hear_up(&mut self, params: &Params, busy: u64)
        ensures { self.new ≡ up_in params.now busy self.old }
    {
        if self.is_dead() {
            self.revive(params, busy);
            return;
        }
        self.cohorts = 0;
        let limit = u64::from(params.window_limit());
        if self.window < limit && self.is_filled(params, busy) {
            self.widen(params);
        }
    }

    /// Adds one failure, which narrows the window where it falls below 0.
    fn narrow(&mut self, params: &Params)
        ensures { self.new ≡ narrowed_in params.now self.old }
    {
        let feedback = params.default_destination_concurrency_negative_feedback;
        let fall = u128::from(feedback.amount(self.open_window()));
        if self.failure < fall {
            self.window = self.window.saturating_sub(1).max(1);
            self.failure = self.failure + u128::from(feedback.units()) - fall;
            self.success = 0;
        } else {
            self.failure -= fall;
        }
    }

    /// The failed cohorts with one failure more, at a site that is alive.
    fn more_cohorts(&self, params: &Params) -> u128
        requires { is_alive self.now.health ≡ true }
        ensures { result ≡ more_cohorts_in params.now self.now }
    {
        if params.default_destination_concurrency_failed_cohort_limit == 0 {
            0
        } else {
            self.cohorts + u128::from(PARTS / u64::from(self.open_window()))
        }
    }

    /// Hears that a delivery didn't reach it.
    fn hear_down(&mut self, params: &Params, moment: Moment)
        requires { moment ≤ 999990000000 }
        ensures { self.new ≡ down_in params.now moment self.old }
    {
        if self.is_dead() {
            return;
        }
        let cohorts = self.more_cohorts(params);
        if is_too_much(params, cohorts) {
            self.cohorts = cohorts;
            self.health = Health::DeadUntil(moment + u64::from(params.minimal_backoff_time));
        } else {
            self.cohorts = cohorts;
            self.narrow(params);
        }
    }

    /// Rests for the delay between deliveries, where there is one.
    fn rest_from(&mut self, params: &Params, moment: Moment)
        requires { moment ≤ 999990000000 }
        ensures { self.new ≡ rested (world_without_table params.now) moment self.old }
    {
        let delay = params.default_destination_rate_delay;
        if delay != 0 {
            self.rest = Some(moment + u64::from(delay));
        }
    }

    /// Hears that a delivery reached it, with so many in flight, or didn't.
    fn hear(&mut self, params: &Params, busy: u64, moment: Moment, state: SiteState)
        requires { moment ≤ 999990000000 }
        ensures { self.new ≡ heard_in params.now busy moment state self.old }
    {
        match state {
            SiteState::Up => self.hear_up(params, busy),
            SiteState::Down => self.hear_down(params, moment),
        }
        self.rest_from(params, moment);
    }

    fn hear_at(&mut self, site: &Site, params: &Params, busy: u64, clock: Clock, state: SiteState)
        ensures { self.new ≡ heard_at params.now site.now busy clock.seconds state self.old }
    {
        if same_site(&self.site, site) {
            self.hear(params, busy, clock.seconds, state);
        }
    }
}

/// The site hears that a delivery reached it, with so many in flight, or didn't.
fn hear_state(
    sites: &mut [WideSiteRecord],
    site: &Site,
    params: &Params,
    busy: u64,
    clock: Clock,
    state: SiteState,
)
    ensures { sites.new ≡ map (heard_at params.now site.now busy clock.seconds state) sites.old }
{
    for noted in sites.iter_mut() {
        noted.hear_at(site, params, busy, clock, state);
    }
}

/// Whether so many failed cohorts make a site dead.
fn is_too_much(params: &Params, cohorts: u128) -> bool
    ensures { result ≡ is_too_much params.now cohorts }
{
    let limit = params.default_destination_concurrency_failed_cohort_limit;
    limit != 0 && u128::from(limit) * u128::from(PARTS) <= cohorts
}

impl Ledger {
    /// A delivery to the site replied, and is still counted in flight.
    pub(crate) fn hear_state(&mut self, world: &World, site: &Site, state: SiteState)
        ensures { self.new ≡ with_sites (sites_heard (world_of world.now) self.old.ledger
            site.now state) self.old }
    {
        let busy = self.busy(site) as u64;
        hear_state(
            &mut self.sites,
            site,
            &world.params,
            busy,
            self.clock,
            state,
        );
    }
}
