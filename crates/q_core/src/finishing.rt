//! How an idle message leaves active.
ghost use Rattle.std.specs.Prelude.{◌≡◌};
ghost use Rattle.q_core.specs.Held.{due_in, finish_in};
ghost use Rattle.q_core.specs.Rules.{next_finish_in};

use crate::decision::Decision;
use crate::state::Core;
use q_backoff::due;
use q_model::{Moment, Place};
use q_pool::Slot;

impl Core {
    /// When a message that arrived then is due again.
    fn due(&self, arrival: Moment) -> Moment
        ensures { result ≡ due_in self.now arrival }
    {
        due(self.clock.seconds, arrival, &self.params)
    }

    /// One with a record that can't be read goes to corrupt. Else it is deferred, else its bounce is
    /// stored, else it is removed.
    fn finish(&self, slot: &Slot) -> Option<Decision>
        ensures { result ≡ finish_in self.now slot.now }
    {
        if slot.marks > 0 {
            None
        } else if slot.damaged {
            Some(Decision::Corrupt {
                id: slot.id,
                place: Place::Active,
            })
        } else if slot.pending > 0 {
            Some(Decision::Defer {
                id: slot.id,
                due: self.due(slot.arrival),
            })
        } else if slot.logged {
            None
        } else if slot.wants_bounce() && !slot.bounced {
            Some(Decision::Bounce { id: slot.id })
        } else {
            Some(Decision::Remove { id: slot.id })
        }
    }

    pub(crate) fn next_finish(&self) -> Option<Decision>
        ensures { result ≡ next_finish_in self.now }
    {
        match self.first_idle() {
            Some(slot) => self.finish(slot),
            None => None,
        }
    }
}
