//! Messages that an earlier life left in active: a failure is marked, and marks are synced.
ghost use Rattle.std.specs.Prelude.{◌≡◌, IsTrue, [], false};
ghost use Rattle.q_core.specs.Agrees.{ForLedgers, FollowsRule, MarksLeftovers};
ghost use Rattle.q_core.specs.Held.{is_admitted_in};
ghost use Rattle.q_core.specs.Changes.{IsNoted, is_looked_at};
ghost use Rattle.q_model.specs.Next.{next};

use crate::state::{Core, Seen};
use q_model::{Entry, Id};

impl Core {
    /// Active is to be looked at anew.
    pub(crate) fn forget_active(&mut self)
        ensures { self.new ≡ record self.old { active = Seen.Unknown } }
    {
        self.active = Seen::Unknown;
    }

    /// A failure of an earlier life is marked.
    pub(crate) fn mark_left(&mut self)
        requires { IsTrue (is_looked_at self.old) }
        ensures exact { self.old.unsettled ≡ [] → ForLedgers self.old
            (λ w l. MarksLeftovers w l self.new) }
        ensures timed { self.new.timed ≡ self.old.timed }
    {
        self.forget_active();
        self.tidy();
    }

    /// The message counts as synced in this life, in place of the one before, which is gone.
    fn note_synced(&mut self, id: Id)
        ensures { IsNoted self.old self.new id }
    {
        self.synced = Some(id);
        self.active = Seen::Unknown;
    }

    /// The marks of a message of an earlier life are synced.
    pub(crate) fn sync_left(&mut self, id: Id)
        requires { IsTrue (is_looked_at self.old) }
        ensures exact { is_admitted_in self.old id ≡ false
            → FollowsRule self.old self.new next (Entry.Sync id) }
        ensures timed { self.new.timed ≡ self.old.timed }
    {
        self.note_synced(id);
        self.tidy();
    }
}
