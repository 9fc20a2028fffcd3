//! When recipients of a message are read.
ghost use Rattle.std.specs.Prelude.{◌≡◌, find};
ghost use Rattle.std.specs.Option.{option_copied};
ghost use Rattle.q_core.specs.Held.{free_in, may_read_in};
ghost use Rattle.q_core.specs.Rules.{next_read_in};

use crate::decision::Decision;
use crate::state::Core;
use q_pool::Slot;

impl Core {
    /// How many more recipients may come into memory.
    pub(crate) fn free(&self) -> u32
        ensures { result ≡ free_in self.now }
    {
        let limit = u64::from(self.params.qmgr_message_recipient_limit);
        limit.saturating_sub(self.in_memory) as u32
    }

    /// The first message in memory of which recipients are to be read now.
    fn first_to_read(&self) -> Option<&Slot>
        ensures { option_copied result ≡ find (may_read_in self.now) self.now.admitted }
    {
        self.admitted.stand_apart();
        match self.admitted.first_to_read(self.free()) {
            Some(kept) => Some(&kept.slot),
            None => None,
        }
    }

    pub(crate) fn next_read(&self) -> Option<Decision>
        ensures { result ≡ next_read_in self.now }
    {
        match self.first_to_read() {
            Some(slot) => Some(Decision::Read {
                id: slot.id,
                from: slot.unread,
                max: self.free(),
            }),
            None => None,
        }
    }
}
