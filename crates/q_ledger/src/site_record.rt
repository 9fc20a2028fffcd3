//! What is known of a site.
ghost use Rattle.std.specs.Prelude.{◌≡◌, ◌&&◌, nat_lt, not};
ghost use Rattle.q_model.specs.Revival.{is_due, is_rest_over, rest_ended};
ghost use Rattle.q_model.specs.Routes.{world_without_table};
ghost use Rattle.q_model.specs.SiteRecords.{is_alive, is_awake, new_record};
ghost use Rattle.q_model.specs.Windows.{revived};

use q_model::{Health, Moment, Site};
use q_settings::Params;
use std::marker::Model;

/// What is known of a site, in numbers wide enough for any feedback. A contract sees it as
/// the ledger's record.
#[derive(Debug, Drop)]
pub(crate) struct WideSiteRecord {
    pub(crate) site: Site,
    pub(crate) window: u64,
    pub(crate) success: u128,
    pub(crate) failure: u128,
    pub(crate) cohorts: u128,
    pub(crate) health: Health,
    pub(crate) rest: Option<Moment>,
}

impl Model for WideSiteRecord {
    ghost use Rattle.q_model.specs.Values.{SiteRecord};

    ghost Value = { SiteRecord };

    ghost use Rattle.std.specs.Prelude.{◌≡◌, ◌≤◌, ◌^◌, true};
    ghost use Rattle.q_model.specs.SiteRecords.{is_alive};

    ghost view = { λ d. record {
      site = d.site;
      window = d.window;
      success = d.success;
      failure = d.failure;
      cohorts = d.cohorts;
      health = d.health;
      rest = d.rest;
    } };

    ghost invariant = { λ d. (d.success ≤ 2 ^ 64) × (d.failure ≤ 2 ^ 64) × (d.cohorts ≤ 2 ^ 64)
        × (is_alive d.health ≡ true → d.cohorts ≤ 2 ^ 63) };
}

impl WideSiteRecord {
    /// The record of a site that is used anew.
    pub(crate) fn new(site: Site, params: &Params) -> WideSiteRecord
        ensures { result ≡ new_record (world_without_table params.now) site }
    {
        let initial = params
            .initial_destination_concurrency
            .min(params.window_limit());
        WideSiteRecord {
            site,
            window: u64::from(initial),
            success: 0,
            failure: 0,
            cohorts: 0,
            health: Health::Alive,
            rest: None,
        }
    }

    pub(crate) fn is_dead(&self) -> bool
        ensures { result ≡ not (is_alive self.now.health) }
    {
        match self.health {
            Health::Alive => false,
            Health::DeadUntil(_) => true,
        }
    }

    /// Whether it is alive, and doesn't rest.
    pub(crate) fn is_awake(&self) -> bool
        ensures { result ≡ is_awake self.now }
    {
        !self.is_dead() && self.rest.is_none()
    }

    /// Whether it is alive and doesn't rest, and more than so many deliveries may be in flight.
    pub(crate) fn has_space(&self, busy: u64) -> bool
        ensures { result ≡ (is_awake self.now && nat_lt busy self.now.window) }
    {
        self.is_awake() && busy < self.window
    }

    /// Whether it is dead, and its time has come.
    pub(crate) fn is_due(&self, moment: Moment) -> bool
        ensures { result ≡ is_due moment self.now.health }
    {
        match self.health {
            Health::Alive => false,
            Health::DeadUntil(until) => until <= moment,
        }
    }

    /// Whether its rest is over.
    pub(crate) fn is_rest_over(&self, moment: Moment) -> bool
        ensures { result ≡ is_rest_over moment self.now }
    {
        match self.rest {
            Some(until) => until <= moment,
            None => false,
        }
    }

    /// Ends a rest that is over.
    pub(crate) fn end_rest(&mut self, moment: Moment)
        ensures { self.new ≡ rest_ended moment self.old }
    {
        if self.is_rest_over(moment) {
            self.rest = None;
        }
    }

    /// Makes it alive again, with so many deliveries in flight.
    pub(crate) fn revive(&mut self, params: &Params, busy: u64)
        ensures { self.new ≡ revived (world_without_table params.now) busy self.old }
    {
        let initial = params
            .initial_destination_concurrency
            .min(params.window_limit());
        self.window = if busy == 0 { u64::from(initial) } else { busy };
        self.success = 0;
        self.failure = 0;
        self.cohorts = 0;
        self.health = Health::Alive;
    }
}
