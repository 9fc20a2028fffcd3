//! Which messages have something left to do.
ghost use Rattle.std.specs.Prelude.{◌≡◌, find};
ghost use Rattle.std.specs.Option.{option_copied};
ghost use Rattle.q_core.specs.Held.{has_rows_in, is_admitted_in, is_idle_in, unread_in, wants_sync_in};
ghost use Rattle.q_core.specs.Rules.{next_sync_in};
ghost use Rattle.q_core.specs.KeptRows.{has_rows};

use crate::decision::Decision;
use crate::state::Core;
use q_model::Id;
use q_pool::{Kept, Slot};

/// Whether a row of the message is left.
fn has_rows(kept: &Kept) -> bool
    ensures { result ≡ has_rows kept.now }
{
    kept.waiting != 0 || kept.flying != 0 || kept.unsettled != 0
}

impl Core {
    pub(crate) fn has_slot(&self, id: Id) -> bool
        ensures { result ≡ is_admitted_in self.now id }
    {
        match self.slot(id) {
            Some(_) => true,
            None => false,
        }
    }

    /// How many positions of the message weren't read.
    pub(crate) fn unread(&self, id: Id) -> u32
        ensures { result ≡ unread_in self.now id }
    {
        match self.slot(id) {
            Some(slot) => slot.unread_count(),
            None => 0,
        }
    }

    /// Whether the message has a row that waits, is in flight or is unsettled.
    pub(crate) fn has_rows(&self, id: Id) -> bool
        ensures { result ≡ has_rows_in self.now id }
    {
        match self.admitted.get(id) {
            Some(kept) => has_rows(kept),
            None => false,
        }
    }

    /// The first message in memory that is idle.
    pub(crate) fn first_idle(&self) -> Option<&Slot>
        ensures { option_copied result ≡ find (λ s. is_idle_in self.now s.id) self.now.admitted }
    {
        self.admitted.stand_apart();
        match self.admitted.first_idle() {
            Some(kept) => Some(&kept.slot),
            None => None,
        }
    }

    /// The first message in memory whose marks are to be synced.
    pub(crate) fn first_to_sync(&self) -> Option<&Slot>
        ensures { option_copied result ≡ find (wants_sync_in self.now) self.now.admitted }
    {
        self.admitted.stand_apart();
        match self.admitted.first_to_sync() {
            Some(kept) => Some(&kept.slot),
            None => None,
        }
    }

    pub(crate) fn next_sync(&self) -> Option<Decision>
        ensures { result ≡ next_sync_in self.now }
    {
        match self.first_to_sync() {
            Some(slot) => Some(Decision::Sync { id: slot.id }),
            None => None,
        }
    }
}
