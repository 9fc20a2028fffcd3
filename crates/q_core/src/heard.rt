//! Events without a row: the clock and the triggers (qmgr(8)).
ghost use Rattle.std.specs.Prelude.{◌≡◌, ◌≤◌, IsTrue, true};
ghost use Rattle.q_core.specs.Agrees.{ForLedgers, Matches};
ghost use Rattle.q_core.specs.Changes.{IsRevived, IsWoken, all_revived, asked_when_due, is_looked_at, woken_by, used_sites, with_sites};
ghost use Rattle.q_model.specs.Step.{after};

use crate::clock::Clock;
use crate::dead_rows::hold_dead;
use crate::state::{Core, Seen};
use q_model::{Entry, Moment, Trigger};

impl Core {
    /// Whether the next name of the scan was looked at, or there is no scan. It is so where the
    /// ledger is quiet and where recipients are to be read.
    pub fn is_looked_at(&self) -> bool
        ensures { result ≡ is_looked_at self.now }
    {
        match (&self.scan, &self.deferred) {
            (None, _) => true,
            (Some(_), Seen::Unknown) => false,
            (Some(_), Seen::Known { .. }) => true,
        }
    }

    /// Sets the clock, and revives the sites whose time has come.
    fn wake(&mut self, moment: Moment)
        requires { moment ≤ 999990000000 }
        ensures woken { IsWoken self.old (with_sites (woken_by moment self.old) self.new) moment }
        ensures used { self.new.sites ≡ used_sites self.new (woken_by moment self.old) }
    {
        self.clock = Clock::new(moment);
        self.timed = true;
        self.sites.stand_apart();
        self.sites.wake_due(&self.params, moment);
        self.schedule.resume_due(moment);
        hold_dead(&mut self.waiting, &self.sites);
    }

    /// Asks for the scan that is due.
    fn ask_when_due(&mut self)
        ensures { self.new ≡ asked_when_due self.old }
    {
        if self.next_run <= self.clock.seconds {
            self.next_run = self.clock.seconds + u64::from(self.params.queue_run_delay);
            self.ask_scan();
        }
    }

    /// Takes the event of a moment.
    pub(crate) fn hear_at(&mut self, moment: Moment)
        requires early { moment ≤ 999990000000 }
        requires seen { IsTrue (is_looked_at self.old) }
        ensures exact { ForLedgers self.old (λ w l. Matches w self.new (after w l (Entry.At moment))) }
        ensures timed { self.new.timed ≡ true }
    {
        self.wake(moment);
        self.ask_when_due();
        self.tidy();
    }

    fn revive_all(&mut self)
        ensures revived { IsRevived self.old (with_sites (all_revived self.old) self.new) }
        ensures used { self.new.sites ≡ used_sites self.new (all_revived self.old) }
    {
        self.sites.stand_apart();
        self.sites.revive_all(&self.params);
        hold_dead(&mut self.waiting, &self.sites);
    }

    fn hear_scan(&mut self)
        requires { IsTrue (is_looked_at self.old) }
        ensures exact { ForLedgers self.old (λ w l. Matches w self.new (after w l
            (Entry.Trigger Trigger.D))) }
        ensures timed { self.new.timed ≡ self.old.timed }
    {
        self.ask_scan();
        self.tidy();
    }

    fn hear_ignore(&mut self)
        requires { IsTrue (is_looked_at self.old) }
        ensures exact { ForLedgers self.old (λ w l. Matches w self.new (after w l
            (Entry.Trigger Trigger.A))) }
        ensures timed { self.new.timed ≡ self.old.timed }
    {
        self.ignores = true;
        self.tidy();
    }

    fn hear_revival(&mut self)
        requires { IsTrue (is_looked_at self.old) }
        ensures exact { ForLedgers self.old (λ w l. Matches w self.new (after w l
            (Entry.Trigger Trigger.F))) }
        ensures timed { self.new.timed ≡ self.old.timed }
    {
        self.revive_all();
        self.tidy();
    }

    /// Takes the event of a trigger.
    pub(crate) fn hear_trigger(&mut self, kind: Trigger)
        requires { IsTrue (is_looked_at self.old) }
        ensures exact { ForLedgers self.old (λ w l. Matches w self.new (after w l (Entry.Trigger kind))) }
        ensures timed { self.new.timed ≡ self.old.timed }
    {
        match kind {
            Trigger::D => self.hear_scan(),
            Trigger::A => self.hear_ignore(),
            Trigger::F => self.hear_revival(),
        }
    }
}
