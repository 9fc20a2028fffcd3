//! What happens to a site: rows come for it and leave, and deliveries to it begin, reply and end.
ghost use Rattle.std.specs.Prelude.{◌≡◌, ◌<◌, ◌≤◌, ◌+◌, ◌^◌, filter, find, length, map, option_map};
ghost use Rattle.q_dest.specs.Dests.{begun, busy_at, changed_at, gained_at, heard, is_kept, is_remembered, landed, left, settled, waiting_at};
ghost use Rattle.q_model.specs.Lists.{drop_first};

use crate::dest::Dest;
use crate::sites::Sites;
use q_model::{Moment, Site, SiteState};
use q_settings::Params;

impl Sites {
    /// One row more waits for the site, which comes behind all others where it wasn't known.
    pub fn gain(&mut self, site: &Site, params: &Params)
        requires few { waiting_at site.now self.old.items + 1 < 2 ^ 32 }
        requires room { length self.old.items < self.old.room }
        ensures { self.new ≡ record self.old
            { items = gained_at params.now site.now self.old.items } }
    {
        match self.table.get(site) {
            Some(found) => {
                let next = found.gained(1);
                self.replace(site, &found, next);
            }
            None => self.add(Dest::new(*site, params)),
        }
    }

    /// The delivery of a row to the site begins.
    pub fn begin(&mut self, site: &Site)
        requires { busy_at site.now self.old.items + 1 < 2 ^ 32 }
        ensures { self.new ≡ record self.old
            { items = map (changed_at site.now begun) self.old.items } }
    {
        if let Some(found) = self.table.get(site) {
            let next = found.begun();
            self.replace(site, &found, next);
        }
    }

    /// The site hears of a delivery that is still counted in flight.
    pub fn hear(&mut self, site: &Site, params: &Params, moment: Moment, state: SiteState)
        requires moment { moment ≤ 999990000000 }
        requires busy { 1 ≤ busy_at site.now self.old.items }
        ensures { self.new ≡ record self.old
            { items = map (changed_at site.now (heard params.now moment state)) self.old.items } }
    {
        if let Some(found) = self.table.get(site) {
            let next = found.heard(params, moment, state);
            self.replace(site, &found, next);
        }
    }

    /// A row for the site leaves without a delivery.
    pub fn leave(&mut self, site: &Site)
        ensures { self.new ≡ record self.old
            { items = filter is_kept (settled site.now left self.old.items) } }
    {
        if let Some(found) = self.table.get(site) {
            let next = found.left();
            self.settle(site, &found, next);
        }
    }

    /// A delivery to the site ends.
    pub fn land(&mut self, site: &Site)
        ensures { self.new ≡ record self.old
            { items = filter is_kept (settled site.now landed self.old.items) } }
    {
        if let Some(found) = self.table.get(site) {
            let next = found.landed();
            self.settle(site, &found, next);
        }
    }

    /// Forgets the site that is only remembered for the longest time, and gives it.
    pub fn forget(&mut self) -> Option<Site>
        ensures site { result
            ≡ option_map (λ d. d.known.site) (find is_remembered self.old.items) }
        ensures sites { self.new ≡ record self.old
            { items = drop_first is_remembered self.old.items } }
    {
        self.stand_apart();
        let found = self.table.first_remembered()?;
        let site = *found.site();
        self.remove(&site, &found);
        Some(site)
    }
}
