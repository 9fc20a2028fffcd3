//! Damaged files go to corrupt.
ghost use Rattle.std.specs.Prelude.{◌≡◌, IsTrue, true};
ghost use Rattle.q_core.specs.Agrees.{Follows};
ghost use Rattle.q_core.specs.Changes.{is_looked_at};
ghost use Rattle.q_core.specs.Facts.{shows_damaged};
ghost use Rattle.q_core.specs.Held.{is_damaged_in};

use crate::decision::Found;
use crate::names::same_id;
use crate::state::{Core, Seen};
use q_model::{Entry, Id};

impl Core {
    /// Whether the look at active has shown this file, and it is damaged.
    pub(crate) fn shows_damaged(&self, damaged: Id) -> bool
        ensures { result ≡ shows_damaged self.now.active damaged }
    {
        match &self.active {
            Seen::Known {
                found: Found::Damaged { id, .. },
            } => same_id(*id, damaged),
            _ => false,
        }
    }

    /// Whether a message in memory of this id has a record that can't be read.
    pub(crate) fn has_damage(&self, id: Id) -> bool
        ensures { result ≡ is_damaged_in self.now id }
    {
        self.admitted.stand_apart();
        match self.slot(id) {
            Some(slot) => slot.damaged,
            None => false,
        }
    }

    /// Such a message goes to corrupt.
    pub(crate) fn corrupt_read(&mut self, id: Id)
        ensures { self.new.timed ≡ self.old.timed }
    {
        self.remove_slot(id);
        self.forget_looks();
        self.tidy();
    }

    /// All is to be looked at anew.
    pub(crate) fn forget_looks(&mut self)
        ensures { self.new ≡ record self.old {
          active = Seen.Unknown;
          incoming = Seen.Unknown;
          deferred = Seen.Unknown;
        } }
    {
        self.active = Seen::Unknown;
        self.incoming = Seen::Unknown;
        self.deferred = Seen::Unknown;
    }

    /// A damaged file that an earlier life left goes to corrupt.
    pub(crate) fn corrupt_left(&mut self)
        requires { IsTrue (is_looked_at self.old) }
        ensures exact { (id : Id) → shows_damaged self.old.active id ≡ true
            → Follows self.old self.new (Entry.Corrupt id) }
        ensures timed { self.new.timed ≡ self.old.timed }
    {
        self.forget_looks();
        self.tidy();
    }
}
