//! When dead sites are alive again, and rests end.
ghost use Rattle.std.specs.Prelude.{◌≡◌, map};
ghost use Rattle.q_model.specs.Revival.{revive_all, wake_due};
ghost use Rattle.q_ledger.specs.Changed.{with_ledger};
ghost use Rattle.q_ledger.specs.Woken.{busy_among, revived_among, revived_at, revived_if_dead, woken_at};
ghost use Rattle.q_ledger.specs.Worlds.{world_of};

use crate::ids::same_site;
use crate::ledger::Ledger;
use crate::site_record::WideSiteRecord;
use crate::world::World;
use q_model::{Delivery, Moment, Site};
use q_settings::Params;

/// How many of these deliveries are to the site.
fn busy_at(flights: &[Delivery], site: &Site) -> usize
    ensures { result ≡ busy_among flights.now site.now }
{
    flights
        .iter()
        .filter(|flight| same_site(&flight.row.site, site))
        .count()
}

impl WideSiteRecord {
    fn revive_busy(&mut self, flights: &[Delivery], params: &Params)
        ensures { self.new ≡ revived_among params.now flights.now self.old }
    {
        let busy = busy_at(flights, &self.site);
        self.revive(params, busy as u64);
    }

    fn revive_at(&mut self, flights: &[Delivery], params: &Params, moment: Moment)
        ensures { self.new ≡ revived_at params.now flights.now moment self.old }
    {
        if self.is_due(moment) {
            self.revive_busy(flights, params);
        }
    }

    /// Is alive again where its time has come, and without a rest that is over.
    fn wake(&mut self, flights: &[Delivery], params: &Params, moment: Moment)
        ensures { self.new ≡ woken_at params.now flights.now moment self.old }
    {
        self.revive_at(flights, params, moment);
        self.end_rest(moment);
    }

    fn revive_if_dead(&mut self, flights: &[Delivery], params: &Params)
        ensures { self.new ≡ revived_if_dead params.now flights.now self.old }
    {
        if self.is_dead() {
            self.revive_busy(flights, params);
        }
    }
}

fn wake_due(sites: &mut [WideSiteRecord], flights: &[Delivery], params: &Params, moment: Moment)
    ensures { sites.new ≡ map (woken_at params.now flights.now moment) sites.old }
{
    for noted in sites.iter_mut() {
        noted.wake(flights, params, moment);
    }
}

fn revive_all(sites: &mut [WideSiteRecord], flights: &[Delivery], params: &Params)
    ensures { sites.new ≡ map (revived_if_dead params.now flights.now) sites.old }
{
    for noted in sites.iter_mut() {
        noted.revive_if_dead(flights, params);
    }
}

impl Ledger {
    /// Revives those whose time has come, and ends rests that are over.
    pub(crate) fn revive_due(&mut self, world: &World, moment: Moment)
        ensures { self.new ≡ with_ledger self.old (record self.old.ledger {
          sites = wake_due (world_of world.now) (record self.old.ledger { now = moment });
        }) }
    {
        wake_due(&mut self.sites, &self.flights, &world.params, moment);
    }

    /// Revives all.
    pub(crate) fn revive_all(&mut self, world: &World)
        ensures { self.new ≡ with_ledger self.old (record self.old.ledger {
          sites = revive_all (world_of world.now) self.old.ledger;
        }) }
    {
        revive_all(&mut self.sites, &self.flights, &world.params);
    }
}
