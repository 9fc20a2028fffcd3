//! Lanes of a site are suspended, and resumed.
ghost use Rattle.std.specs.Prelude.{◌≡◌, List, ℕ};
ghost use Rattle.q_candidates.specs.declared.candidate.Candidate.{Candidate};
ghost use Rattle.q_candidates.specs.Sound.{IsFiled, IsLaid};
ghost use Rattle.q_candidates.specs.Suspending.{AreSet, differs, IsSetAt};
ghost use Rattle.q_keyed.specs.Numbered.{Numbered};

use crate::index::{Index, need_ticket};
use crate::lane::{Lane, class_of};
use q_model::Site;
use q_peers::site_hash;

/// Whether the lane is one of the site, and is to be set.
fn differs(lane: &Lane, site: &Site, suspended: bool) -> bool
    ensures { result ≡ differs site.now suspended lane.now }
{
    lane.site == *site && lane.suspended != suspended
}

impl Index {
    /// Sets the lane of a number, where it is one of the site.
    fn set_lane(&mut self, number: u32, site: &Site, suspended: bool)
        requires laid { IsLaid self.old }
        ensures laid { IsLaid self.new }
        ensures room { self.new.lanes.room ≡ self.old.lanes.room }
        ensures sites { self.new.sites ≡ self.old.sites }
        ensures filed { (ks : List (Numbered Candidate)) → IsFiled ks self.old
            → IsFiled ks self.new }
        ensures set { IsSetAt site.now suspended number self.old.lanes.items
            self.new.lanes.items }
    {
        self.lanes.stand_apart();
        self.ages.stand_sorted();
        self.ranks.stand_sorted();
        let Some(was) = self.lanes.get(number).copied() else {
            return;
        };
        if !differs(&was, site, suspended) {
            return;
        }
        let lane = Lane {
            site: was.site,
            need: was.need,
            suspended,
        };
        self.needs.remove(&need_ticket(number, &was));
        self.needs.stand_sorted();
        self.lanes.put(number, lane);
        let class = class_of(&lane);
        self.ages.set_class(number, class);
        self.ranks.set_class(number, class);
        self.needs.insert(need_ticket(number, &lane));
    }

    /// Lets no lane of the site be walked along, or all of them, in a walk along its bucket.
    pub(crate) fn set_suspended(&mut self, site: &Site, suspended: bool)
        requires { IsLaid self.old }
        ensures laid { IsLaid self.new }
        ensures room { self.new.lanes.room ≡ self.old.lanes.room }
        ensures filed { (ks : List (Numbered Candidate)) → IsFiled ks self.old
            → IsFiled ks self.new }
        ensures set { AreSet site.now suspended self.old.lanes.items self.new.lanes.items }
    {
        let bucket = site_hash(site);
        let mut at = self.sites.first_of(bucket);
        while let Some(ticket) = at {
            if ticket.group != bucket {
                return;
            }
            self.set_lane(ticket.item, site, suspended);
            at = self.sites.behind(&ticket);
        }
    }
}
