//! What is kept of a message in memory, and what it has left to do.
ghost use Rattle.std.specs.Prelude.{◌≡◌};
ghost use Rattle.q_pool.specs.Kept.{is_idle, may_read, wants_sync};
ghost use Rattle.q_pool.specs.Ranks.{rank_of};

use crate::slot::Slot;

/// The slot of a message, and the counts of its rows.
#[derive(Clone, Copy, Debug)]
pub struct Kept {
    pub slot: Slot,
    /// Rows of it that wait.
    pub waiting: u64,
    /// Deliveries of it in flight.
    pub flying: u64,
    /// Outcomes of it that aren't settled.
    pub unsettled: u64,
}

impl Kept {
    /// Whether nothing of it is unread, and no row is left.
    pub fn is_idle(&self) -> bool
        ensures { result ≡ is_idle self.now }
    {
        self.slot.unread_count() == 0
            && self.waiting == 0
            && self.flying == 0
            && self.unsettled == 0
    }

    /// Whether its marks are to be synced: there are `limit` of them, or some and it is idle.
    pub fn wants_sync(&self, limit: u32) -> bool
        ensures { result ≡ wants_sync limit self.now }
    {
        self.slot.marks >= limit || self.slot.marks > 0 && self.is_idle()
    }

    /// Whether recipients of it are to be read, where `free` more may come into memory: at least
    /// `minimum` of them, or all that are unread.
    pub fn may_read(&self, minimum: u32, free: u32) -> bool
        ensures { result ≡ may_read minimum free self.now }
    {
        let unread = self.slot.unread_count();
        unread > 0 && self.waiting == 0 && minimum.min(unread) <= free
    }

    /// The rank at which it stands.
    pub(crate) fn rank(&self, limit: u32, minimum: u32) -> u64
        ensures { result ≡ rank_of limit minimum self.now }
    {
        let unread = self.slot.unread_count();
        if self.wants_sync(limit) {
            u64::from(self.is_idle())
        } else if self.is_idle() {
            2
        } else if unread > 0 && self.waiting == 0 {
            3 + u64::from(minimum.min(unread))
        } else {
            u64::MAX
        }
    }
}
