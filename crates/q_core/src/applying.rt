//! The core takes a decision over: it becomes what the ledger is after the decision's entry. What
//! concerns a message in memory and one that an earlier life left is told apart here.
ghost use Rattle.std.specs.Prelude.{◌≡◌, IsSome, IsTrue, Some};
ghost use Rattle.q_core.specs.Changes.{is_looked_at};
ghost use Rattle.q_core.specs.Deciding.{Applies, decide_in};
ghost use Rattle.q_core.specs.Leaving.{IsSkipNoted};
ghost use Rattle.q_core.specs.Queries.{flight_in};
ghost use Rattle.q_model.specs.Lists.{has_none};

use crate::decision::Decision;
use crate::state::{Core, Seen};
use q_model::{Failure, Id, Moment, Place, Site};

impl Core {
    fn has_no_outcomes(&self) -> bool
        ensures { result ≡ has_none self.now.unsettled }
    {
        self.unsettled.is_empty()
    }

    pub(crate) fn apply_log(&mut self, id: Id, failure: Failure)
        requires seen { IsTrue (is_looked_at self.old) }
        requires decided { decide_in self.old ≡ Some (Decision.Log id failure) }
        ensures exact { Applies self.old (Decision.Log id failure) self.new }
        ensures timed { self.new.timed ≡ self.old.timed }
    {
        self.log(id);
    }

    /// What is unsettled comes first; else an earlier life left it.
    pub(crate) fn apply_mark(&mut self, id: Id, position: u32)
        requires seen { IsTrue (is_looked_at self.old) }
        requires decided { decide_in self.old ≡ Some (Decision.Mark id position) }
        ensures exact { Applies self.old (Decision.Mark id position) self.new }
        ensures timed { self.new.timed ≡ self.old.timed }
    {
        if self.has_no_outcomes() {
            self.mark_left();
        } else {
            self.mark_first(id);
        }
    }

    pub(crate) fn apply_sync(&mut self, id: Id)
        requires seen { IsTrue (is_looked_at self.old) }
        requires decided { decide_in self.old ≡ Some (Decision.Sync id) }
        ensures exact { Applies self.old (Decision.Sync id) self.new }
        ensures timed { self.new.timed ≡ self.old.timed }
    {
        if self.has_slot(id) {
            self.sync(id);
        } else {
            self.sync_left(id);
        }
    }

    pub(crate) fn apply_skip(&mut self, id: Id, site: Site, entry: u32)
        requires seen { IsTrue (is_looked_at self.old) }
        requires decided { decide_in self.old ≡ Some (Decision.Skip id site entry) }
        ensures applied { Applies self.old (Decision.Skip id site entry) self.new }
        ensures noted { IsSkipNoted self.old id site entry self.new }
        ensures timed { self.new.timed ≡ self.old.timed }
    {
        if !self.has_row_for(id, &site) {
            return;
        }
        self.skip(id, &site);
    }

    pub(crate) fn apply_defer(&mut self, id: Id, due: Moment)
        requires seen { IsTrue (is_looked_at self.old) }
        requires decided { decide_in self.old ≡ Some (Decision.Defer id due) }
        ensures exact { Applies self.old (Decision.Defer id due) self.new }
        ensures timed { self.new.timed ≡ self.old.timed }
    {
        self.defer(id);
    }

    pub(crate) fn apply_remove(&mut self, id: Id)
        requires seen { IsTrue (is_looked_at self.old) }
        requires decided { decide_in self.old ≡ Some (Decision.Remove id) }
        ensures exact { Applies self.old (Decision.Remove id) self.new }
        ensures timed { self.new.timed ≡ self.old.timed }
    {
        if self.has_slot(id) {
            self.remove(id);
        } else {
            self.remove_left();
        }
    }

    pub(crate) fn apply_bounce(&mut self, id: Id)
        requires seen { IsTrue (is_looked_at self.old) }
        requires decided { decide_in self.old ≡ Some (Decision.Bounce id) }
        ensures exact { Applies self.old (Decision.Bounce id) self.new }
        ensures timed { self.new.timed ≡ self.old.timed }
    {
        if self.has_slot(id) {
            self.bounce(id);
        } else {
            self.bounce_left();
        }
    }

    pub(crate) fn apply_back(&mut self, id: Id)
        requires seen { IsTrue (is_looked_at self.old) }
        requires decided { decide_in self.old ≡ Some (Decision.Back id) }
        ensures exact { Applies self.old (Decision.Back id) self.new }
        ensures timed { self.new.timed ≡ self.old.timed }
    {
        self.back();
    }

    /// A message in memory with a record that can't be read goes, else a damaged file that active
    /// has shown, else the one that is picked next.
    pub(crate) fn apply_corrupt(&mut self, id: Id, place: Place)
        requires seen { IsTrue (is_looked_at self.old) }
        requires decided { decide_in self.old ≡ Some (Decision.Corrupt id place) }
        ensures exact { Applies self.old (Decision.Corrupt id place) self.new }
        ensures timed { self.new.timed ≡ self.old.timed }
    {
        if self.has_damage(id) {
            self.corrupt_read(id);
        } else if self.shows_damaged(id) {
            self.corrupt_left();
        } else {
            self.corrupt_picked();
        }
    }

    pub(crate) fn apply_admit(&mut self, id: Id, place: Place)
        requires seen { IsTrue (is_looked_at self.old) }
        requires decided { decide_in self.old ≡ Some (Decision.Admit id place) }
        ensures exact { Applies self.old (Decision.Admit id place) self.new }
        ensures timed { self.new.timed ≡ self.old.timed }
    {
        self.admit();
    }

    pub(crate) fn apply_start(&mut self, number: u64, id: Id, site: Site)
        requires seen { IsTrue (is_looked_at self.old) }
        requires decided { decide_in self.old ≡ Some (Decision.Start number id site) }
        ensures exact { Applies self.old (Decision.Start number id site) self.new }
        ensures flies { IsSome (flight_in self.new number) }
        ensures timed { self.new.timed ≡ self.old.timed }
    {
        self.start_delivery(number, id, site);
    }

    pub(crate) fn apply_preempt(&mut self, child: Id, parent: Id, transport: u8, need: u32)
        requires seen { IsTrue (is_looked_at self.old) }
        requires decided { decide_in self.old ≡ Some
            (Decision.Preempt child parent transport need) }
        ensures exact { Applies self.old (Decision.Preempt child parent transport need) self.new }
        ensures timed { self.new.timed ≡ self.old.timed }
    {
        self.stand_apart(transport);
        self.preempt(child, parent, transport, need);
    }
}
