//! The first row, and the next one: of all, and of a site; and the first of a message to a site.
ghost use Rattle.std.specs.Prelude.{◌≡◌};
ghost use Rattle.q_peers.specs.Numbered.{any_row, first_such, is_at, is_for, next_such};

use crate::bucket::{peer_bucket, site_bucket};
use crate::slots::WAITING;
use crate::waiting::Waiting;
use crate::walk::{first_at_from, first_for_from};
use q_model::{Id, Site};

impl Waiting {
    /// The number of the first row.
    pub fn first(&self) -> Option<u32>
        ensures { result ≡ first_such any_row self.now.items }
    {
        self.order.first(WAITING)
    }

    /// The number of the row right behind the one of this number.
    pub fn next(&self, number: u32) -> Option<u32>
        ensures { result ≡ next_such (λ r. any_row) number self.now.items }
    {
        let _row = self.rows.get(number)?;
        self.order.next(number)
    }

    /// The number of the first row to a site, by a walk along its bucket.
    pub fn first_at(&self, site: &Site) -> Option<u32>
        ensures { result ≡ first_such (is_at site.now) self.now.items }
    {
        let from = self.by_site.first(site_bucket(site, self.room));
        first_at_from(&self.rows, &self.by_site, from, site)
    }

    /// The number of the next row to the same site, behind the one of this number, by a walk along
    /// its bucket.
    pub fn next_at(&self, number: u32) -> Option<u32>
        ensures { result ≡ next_such (λ r. is_at r.site) number self.now.items }
    {
        let row = self.rows.get(number)?;
        self.by_site.stand_once();
        let from = self.by_site.next(number);
        first_at_from(&self.rows, &self.by_site, from, row.site)
    }

    /// The number of the first row of a message to a site, by a walk along their bucket.
    pub fn first_for(&self, id: Id, site: &Site) -> Option<u32>
        ensures { result ≡ first_such (is_for id site.now) self.now.items }
    {
        let from = self.by_peer.first(peer_bucket(id, site, self.room));
        first_for_from(&self.rows, &self.by_peer, from, id, site)
    }
}
