//! Sites are suspended, and resumed.
ghost use Rattle.std.specs.Prelude.{◌≡◌, ◌<◌, ◌-◌, ◌^◌, false, filter, nat_lt, not};
ghost use Rattle.std.specs.List.{list_any};
ghost use Rattle.q_suspended.specs.Suspensions.{is_at};
ghost use Rattle.q_turns.specs.Suspending.{suspended_with};

use crate::schedule::Schedule;
use q_model::{Moment, Site};

impl Schedule {
    /// The site is suspended until the moment, where there is room for it: `current` and `best` pass it
    /// without a step.
    pub fn suspend(&mut self, site: &Site, until: Moment)
        requires { list_any (is_at site.now) self.old.suspended ≡ false }
        ensures { self.new ≡ record self.old {
          suspended = suspended_with self.old.suspended_room
              (record { site = site.now; until = until }) self.old.suspended;
        } }
    {
        self.turns.suspend(site, until, &mut self.candidates);
    }

    /// The site isn't suspended any more.
    pub fn resume(&mut self, site: &Site)
        ensures { self.new ≡ record self.old
            { suspended = filter (λ s. not (is_at site.now s)) self.old.suspended } }
    {
        self.turns.resume(site, &mut self.candidates);
    }

    /// The sites whose moment has come aren't suspended any more.
    pub fn resume_due(&mut self, moment: Moment)
        requires { moment < 2 ^ 64 - 1 }
        ensures { self.new ≡ record self.old
            { suspended = filter (λ s. nat_lt moment s.until) self.old.suspended } }
    {
        self.turns.resume_due(moment, &mut self.candidates);
    }
}
