//! Messages come to incoming: they arrive, bounces are stored, and messages that an earlier life
//! left in active go back.
ghost use Rattle.q_core.specs.Hearing.{IsHeard};
ghost use Rattle.std.specs.Prelude.{◌≡◌, IsTrue, false, map, true};
ghost use Rattle.q_core.specs.Agrees.{Follows};
ghost use Rattle.q_core.specs.Changes.{IsBounced, is_looked_at};
ghost use Rattle.q_core.specs.Held.{is_admitted_in};
ghost use Rattle.q_pool.specs.Slots.{changed_at, with_bounce};

use crate::event::Heard;
use crate::state::{Core, Seen};
use q_model::{Entry, Id};

impl Core {
    fn note_bounce(&mut self, id: Id)
        ensures { IsBounced self.old self.new id }
    {
        self.admitted.bounce(id);
        self.incoming = Seen::Unknown;
    }

    /// The bounce of an idle message is stored.
    pub(crate) fn bounce(&mut self, id: Id)
        requires { IsTrue (is_looked_at self.old) }
        ensures exact { is_admitted_in self.old id ≡ true → Follows self.old self.new (Entry.Bounce id) }
        ensures timed { self.new.timed ≡ self.old.timed }
    {
        self.note_bounce(id);
        self.tidy();
    }

    /// The bounce of a message that an earlier life left is stored.
    pub(crate) fn bounce_left(&mut self)
        requires { IsTrue (is_looked_at self.old) }
        ensures exact { (id : Id) → is_admitted_in self.old id ≡ false
            → Follows self.old self.new (Entry.Bounce id) }
        ensures timed { self.new.timed ≡ self.old.timed }
    {
        self.forget_mail();
        self.tidy();
    }

    /// Incoming is to be looked at anew.
    fn forget_incoming(&mut self)
        ensures { self.new ≡ record self.old { incoming = Seen.Unknown } }
    {
        self.incoming = Seen::Unknown;
    }

    /// A message arrives.
    pub(crate) fn arrive(&mut self, id: Id)
        requires { IsTrue (is_looked_at self.old) }
        ensures exact { (e : Entry) → IsHeard (Heard.Mail id) e → Follows self.old self.new e }
        ensures timed { self.new.timed ≡ self.old.timed }
    {
        self.forget_incoming();
        self.tidy();
    }

    /// A message that an earlier life left goes back.
    pub(crate) fn back(&mut self)
        requires { IsTrue (is_looked_at self.old) }
        ensures exact { (id : Id) → Follows self.old self.new (Entry.Back id) }
        ensures timed { self.new.timed ≡ self.old.timed }
    {
        self.forget_mail();
        self.tidy();
    }
}
