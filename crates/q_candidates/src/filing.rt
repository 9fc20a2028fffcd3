//! Candidates come into the index, and go from it.
ghost use Rattle.std.specs.Prelude.{◌≡◌, ◌<◌, length, None, Some, List, ℕ};
ghost use Rattle.q_keyed.specs.Numbered.{item_at, Numbered};
ghost use Rattle.q_candidates.specs.declared.candidate.Candidate.{Candidate};
ghost use Rattle.q_candidates.specs.Filing.{AreFrom, AreLeft, HasGrown, IsChanged, lane_of};
ghost use Rattle.q_candidates.specs.Sound.{HasSpace, IsFiled, IsLaid};

use crate::candidate::Candidate;
use crate::index::{Index, age_ticket, need_ticket, rank_ticket, site_ticket};
use crate::lane::{Lane, class_of, lane_of};
use q_model::Site;

impl Index {
    /// The number of the lane of the site and the need, which is made where there is none.
    fn make_lane(&mut self, site: &Site, need: u64, suspended: bool) -> u32
        requires laid { IsLaid self.old }
        requires room { length self.old.lanes.items < self.old.lanes.room }
        ensures laid { IsLaid self.new }
        ensures own { lane_of site.now need self.new.lanes.items ≡ Some result }
        ensures grown { HasGrown site.now need suspended self.old self.new }
    {
        self.lanes.stand_apart();
        self.ages.stand_sorted();
        self.ranks.stand_sorted();
        self.needs.stand_sorted();
        self.sites.stand_sorted();
        if let Some(number) = lane_of(&self.lanes, site, need) {
            return number;
        }
        let lane = Lane {
            site: *site,
            need,
            suspended,
        };
        let number = self.lanes.push(lane);
        let class = class_of(&lane);
        self.ages.set_class(number, class);
        self.ranks.set_class(number, class);
        self.needs.insert(need_ticket(number, &lane));
        self.sites.insert(site_ticket(number, &lane));
        number
    }

    /// The candidate under a number comes. A lane that is made for it is suspended or isn't.
    pub(crate) fn enter(&mut self, number: u32, candidate: &Candidate, suspended: bool)
        requires laid { IsLaid self.old }
        requires space { HasSpace self.old }
        ensures laid { IsLaid self.new }
        ensures room { self.new.lanes.room ≡ self.old.lanes.room }
        ensures filed { (ks new : List (Numbered Candidate)) → IsFiled ks self.old
            → item_at number ks ≡ None → IsChanged number (Some candidate.now) ks new
            → IsFiled new self.new }
        ensures lanes { AreFrom candidate.now.site suspended self.old.lanes.items
            self.new.lanes.items }
    {
        self.lanes.stand_apart();
        self.ages.stand_sorted();
        self.ranks.stand_sorted();
        let lane = self.make_lane(&candidate.site, candidate.need, suspended);
        self.lanes.stand_apart();
        self.ages.insert(age_ticket(lane, number, candidate));
        self.ranks.insert(rank_ticket(lane, number, candidate));
    }

    /// The candidate under a number goes, and with it its lane where it is the last one there.
    pub(crate) fn leave(&mut self, number: u32, candidate: &Candidate)
        requires laid { IsLaid self.old }
        ensures laid { IsLaid self.new }
        ensures room { self.new.lanes.room ≡ self.old.lanes.room }
        ensures filed { (ks new : List (Numbered Candidate)) → IsFiled ks self.old
            → item_at number ks ≡ Some candidate.now → IsChanged number None ks new
            → IsFiled new self.new }
        ensures lanes { AreLeft self.old.lanes.items self.new.lanes.items }
    {
        self.lanes.stand_apart();
        let Some(lane) = lane_of(&self.lanes, &candidate.site, candidate.need) else {
            return;
        };
        self.ages.remove(&age_ticket(lane, number, candidate));
        self.ranks.remove(&rank_ticket(lane, number, candidate));
        if self.ages.first_of_lane(lane).is_some() {
            return;
        }
        let Some(gone) = self.lanes.remove(lane) else {
            return;
        };
        self.needs.remove(&need_ticket(lane, &gone));
        self.sites.remove(&site_ticket(lane, &gone));
    }
}
