//! Sites are suspended, and resumed.
ghost use Rattle.std.specs.Prelude.{◌≡◌, ◌<◌, ◌-◌, ◌^◌, false, filter, nat_lt, not};
ghost use Rattle.std.specs.List.{list_any};
ghost use Rattle.q_suspended.specs.Suspensions.{is_at};
ghost use Rattle.q_turns.specs.Suspending.{AreTied, suspended_with};

use crate::laning::class_lane;
use crate::turns::Turns;
use q_candidates::Candidates;
use q_model::{Moment, Site};
use q_suspended::Suspension;

impl Turns {
    /// The site is suspended until the moment, among the candidates too: its rows are passed without a
    /// step. Where there is no room for it, it is asked as before.
    pub fn suspend(&mut self, site: &Site, until: Moment, candidates: &mut Candidates)
        requires apart { list_any (is_at site.now) self.old.suspended ≡ false }
        requires tied { AreTied self.old.suspended candidates.old.suspended }
        ensures suspended { self.new ≡ record self.old {
          suspended = suspended_with self.old.suspended_room
              (record { site = site.now; until = until }) self.old.suspended;
        } }
        ensures rest { candidates.new ≡ record candidates.old
            { suspended = candidates.new.suspended } }
        ensures tied { AreTied self.new.suspended candidates.new.suspended }
    {
        if self.suspended.spare() == 0 {
            return;
        }
        self.lanes.stand_apart();
        self.heads.stand_sorted();
        self.suspended.push(Suspension { site: *site, until });
        class_lane(&self.lanes, &mut self.heads, &self.suspended, site);
        candidates.set_suspended(site, true);
    }

    /// The site isn't suspended any more.
    pub fn resume(&mut self, site: &Site, candidates: &mut Candidates)
        requires { AreTied self.old.suspended candidates.old.suspended }
        ensures suspended { self.new ≡ record self.old
            { suspended = filter (λ s. not (is_at site.now s)) self.old.suspended } }
        ensures rest { candidates.new ≡ record candidates.old
            { suspended = candidates.new.suspended } }
        ensures tied { AreTied self.new.suspended candidates.new.suspended }
    {
        if !self.suspended.has(site) {
            return;
        }
        self.lanes.stand_apart();
        self.heads.stand_sorted();
        self.suspended.remove(site);
        class_lane(&self.lanes, &mut self.heads, &self.suspended, site);
        candidates.set_suspended(site, false);
    }

    /// The sites whose moment has come aren't suspended any more.
    pub fn resume_due(&mut self, moment: Moment, candidates: &mut Candidates)
        requires few { moment < 2 ^ 64 - 1 }
        requires tied { AreTied self.old.suspended candidates.old.suspended }
        ensures suspended { self.new ≡ record self.old
            { suspended = filter (λ s. nat_lt moment s.until) self.old.suspended } }
        ensures rest { candidates.new ≡ record candidates.old
            { suspended = candidates.new.suspended } }
        ensures tied { AreTied self.new.suspended candidates.new.suspended }
    {
        while let Some(suspension) = self.suspended.first_due(moment) {
            self.suspended.stand_apart();
            self.resume(&suspension.site, candidates);
        }
    }
}
