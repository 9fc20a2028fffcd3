//! Rows come to wait, are sent and leave.
ghost use Rattle.std.specs.Prelude.{◌≡◌, ◌+◌, ◌<◌, ◌^◌, find, length, None, true};
ghost use Rattle.q_rounds.specs.Rounds.{has_last};
ghost use Rattle.q_turns.specs.Turns.{gained_at, lost_at, may_wait, started_at, waiting_for};

use crate::lines::is_fresh;
use crate::schedule::Schedule;
use crate::stale::{touch, touch_where};
use q_model::{Id, Site};

impl Schedule {
    /// One row more of the message waits for the site. It has a job at the transport, where that
    /// has a line.
    pub fn gain(&mut self, id: Id, site: &Site)
        requires job { may_wait self.old.lines site.now.transport id ≡ true }
        requires few { waiting_for id site.now self.old.peers + 1 < 2 ^ 32 }
        requires room { length self.old.peers < self.old.room }
        ensures { self.new ≡ record self.old { peers = gained_at id site.now self.old.peers } }
    {
        touch(
            &self.turns,
            &self.messages,
            &mut self.candidates,
            &mut self.stale,
            id,
        );
        self.turns.gain(id, site);
    }

    /// The message was last sent to the site in the delivery of this number.
    pub fn start(&mut self, id: Id, site: &Site, last: u64)
        requires some { 0 < last }
        requires own { find (has_last last) self.old.peers ≡ None }
        ensures { self.new ≡ record self.old
            { peers = started_at id site.now last self.old.peers } }
    {
        self.turns.start(id, site, last);
    }

    /// One row less of the message waits for the site. Where its job there began a delivery it has
    /// no candidate, and so none changes.
    pub fn lose(&mut self, id: Id, site: &Site)
        ensures { self.new ≡ record self.old { peers = lost_at id site.now self.old.peers } }
    {
        self.turns.stand_apart();
        let is_changed = is_fresh(&self.turns, usize::from(site.transport), id);
        touch_where(
            &self.turns,
            &self.messages,
            &mut self.candidates,
            &mut self.stale,
            id,
            is_changed,
        );
        self.turns.lose(id, site);
    }
}
