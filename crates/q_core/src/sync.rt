//! The marks of a message in memory are synced.
ghost use Rattle.std.specs.Prelude.{◌≡◌, IsTrue, map};
ghost use Rattle.q_core.specs.Agrees.{ForLedgers, Matches};
ghost use Rattle.q_core.specs.Changes.{IsSlotChange, is_looked_at};
ghost use Rattle.q_core.specs.Held.{is_admitted_in};
ghost use Rattle.q_pool.specs.Slots.{changed_at, cleared};
ghost use Rattle.q_model.specs.Step.{after};

use crate::state::Core;
use q_model::{Entry, Id};

impl Core {
    fn clear_marks(&mut self, id: Id)
        ensures { IsSlotChange self.old self.new id cleared }
    {
        self.admitted.sync(id);
    }

    /// The marks of a message in memory are synced.
    pub(crate) fn sync(&mut self, id: Id)
        requires admitted { IsTrue (is_admitted_in self.old id) }
        requires seen { IsTrue (is_looked_at self.old) }
        ensures exact { ForLedgers self.old (λ w l. Matches w self.new (after w l (Entry.Sync id))) }
        ensures timed { self.new.timed ≡ self.old.timed }
    {
        self.clear_marks(id);
        self.tidy();
    }
}
