//! What is done with messages that an earlier life left in active.
ghost use Rattle.std.specs.Prelude.{◌≡◌};
ghost use Rattle.q_core.specs.Rules.{clear_found_in, clear_in, is_synced_in, next_clearing_in};

use crate::decision::{Decision, FileFacts, Found};
use crate::names::same_id;
use crate::state::{Core, Seen};
use q_model::{Id, Place};

impl Core {
    /// No other message that an earlier life left was synced, since one goes before the next is.
    fn is_synced(&self, id: Id) -> bool
        ensures { result ≡ is_synced_in self.now id }
    {
        match self.synced {
            Some(other) => same_id(id, other),
            None => false,
        }
    }

    /// Its failures are marked, its marks are synced once, and it goes back where something is
    /// pending; else its bounce is stored, else it is removed.
    fn clear(&self, id: Id, file: &FileFacts) -> Decision
        ensures { result ≡ clear_in (is_synced_in self.now id) id file.now }
    {
        if let Some(position) = file.unmarked {
            Decision::Mark { id, position }
        } else if !self.is_synced(id) {
            Decision::Sync { id }
        } else if file.pending() > 0 {
            Decision::Back { id }
        } else if file.wants_bounce(id) && !file.bounced {
            Decision::Bounce { id }
        } else {
            Decision::Remove { id }
        }
    }

    fn clear_found(&self, found: &Found) -> Option<Decision>
        ensures { result ≡ clear_found_in self.now found.now }
    {
        match found {
            Found::Nothing => None,
            Found::Damaged { id, alone, .. } => {
                if *alone {
                    Some(Decision::Corrupt {
                        id: *id,
                        place: Place::Active,
                    })
                } else {
                    None
                }
            }
            Found::Whole { id, file, .. } => Some(self.clear(*id, file)),
        }
    }

    pub(crate) fn next_clearing(&self) -> Option<Decision>
        ensures { result ≡ next_clearing_in self.now self.now.active }
    {
        match &self.active {
            Seen::Unknown => Some(Decision::LookActive),
            Seen::Known { found } => self.clear_found(found),
        }
    }
}
