//! Idle messages leave memory: they are deferred or removed.
ghost use Rattle.std.specs.Prelude.{◌≡◌, IsTrue, false, true, ℕ};
ghost use Rattle.q_core.specs.Agrees.{Follows};
ghost use Rattle.q_core.specs.Changes.{IsPutOff, IsSlotRemoved, is_looked_at, slots_without};
ghost use Rattle.q_core.specs.Held.{has_rows_in, is_admitted_in};

use crate::state::{Core, Seen};
use crate::touched::touch_unread;
use q_model::{Entry, Id};

impl Core {
    /// The message, of which no row is left, isn't in memory.
    fn drop_message(&mut self, id: Id)
        requires { has_rows_in self.old id ≡ false }
        ensures { self.new ≡ record self.old { admitted = slots_without id self.old.admitted } }
    {
        touch_unread(&mut self.touched_message, &self.admitted, id);
        self.admitted.remove(id);
        self.schedule.remove(id);
    }

    /// The message isn't in memory, and deferred is to be looked at anew.
    fn put_off(&mut self, id: Id)
        ensures exact { has_rows_in self.old id ≡ false → IsPutOff self.old self.new id }
        ensures timed { self.new.timed ≡ self.old.timed }
    {
        if !self.has_rows(id) {
            self.drop_message(id);
        }
        self.deferred = Seen::Unknown;
    }

    /// An idle message is deferred.
    pub(crate) fn defer(&mut self, id: Id)
        requires { IsTrue (is_looked_at self.old) }
        ensures exact { (due : ℕ) → Follows self.old self.new (Entry.Defer id due) }
        ensures timed { self.new.timed ≡ self.old.timed }
    {
        self.put_off(id);
        self.tidy();
    }

    /// The message isn't in memory, and incoming is to be looked at anew, where its bounce is.
    pub(crate) fn remove_slot(&mut self, id: Id)
        ensures exact { has_rows_in self.old id ≡ false → IsSlotRemoved self.old self.new id }
        ensures timed { self.new.timed ≡ self.old.timed }
    {
        if !self.has_rows(id) {
            self.drop_message(id);
        }
        self.incoming = Seen::Unknown;
    }

    /// An idle message is removed.
    pub(crate) fn remove(&mut self, id: Id)
        requires { IsTrue (is_looked_at self.old) }
        ensures exact { is_admitted_in self.old id ≡ true → Follows self.old self.new (Entry.Remove id) }
        ensures timed { self.new.timed ≡ self.old.timed }
    {
        self.remove_slot(id);
        self.tidy();
    }

    /// Active and incoming are to be looked at anew.
    pub(crate) fn forget_mail(&mut self)
        ensures { self.new ≡ record self.old { active = Seen.Unknown; incoming = Seen.Unknown } }
    {
        self.active = Seen::Unknown;
        self.incoming = Seen::Unknown;
    }

    /// A message that an earlier life left is removed.
    pub(crate) fn remove_left(&mut self)
        requires { IsTrue (is_looked_at self.old) }
        ensures exact { (id : Id) → is_admitted_in self.old id ≡ false
            → Follows self.old self.new (Entry.Remove id) }
        ensures timed { self.new.timed ≡ self.old.timed }
    {
        self.forget_mail();
        self.tidy();
    }
}
