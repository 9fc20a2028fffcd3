//! The head of a message in memory, and counts of its recipients.
ghost use Rattle.std.specs.Prelude.{◌≡◌};
ghost use Rattle.q_pool.specs.Kept.{unread_of};
ghost use Rattle.q_pool.specs.Slots.{cleared, read_up, wants_bounce_in, with_bounce, with_damage, with_log, with_slot_mark};

use q_model::{Id, Moment};

/// A message in memory: its head, and counts of its recipients.
#[derive(Clone, Copy, Debug)]
pub struct Slot {
    pub id: Id,
    pub arrival: Moment,
    pub null_sender: bool,
    pub recipients: u32,
    /// The first position that wasn't read.
    pub unread: u32,
    /// Marks that a crash may still lose.
    pub marks: u32,
    /// Recipients that are neither marked nor logged.
    pub pending: u32,
    /// Whether a recipient is logged and not marked.
    pub logged: bool,
    /// Whether it has a failure.
    pub failed: bool,
    /// Whether incoming has the bounce.
    pub bounced: bool,
    /// Whether a record of its file couldn't be read.
    pub damaged: bool,
}

impl Slot {
    /// Whether its failures are to be told to its sender.
    pub fn wants_bounce(&self) -> bool
        ensures { result ≡ wants_bounce_in self.now }
    {
        self.failed && !self.null_sender && !self.id.bounce
    }

    /// How many of its recipients weren't read.
    pub fn unread_count(&self) -> u32
        ensures { result ≡ unread_of self.now }
    {
        self.recipients.saturating_sub(self.unread)
    }

    /// A failure of a pending recipient is logged.
    pub(crate) fn logged(self) -> Slot
        ensures { result ≡ with_log self }
    {
        let mut slot = self;
        slot.pending = slot.pending.saturating_sub(1);
        slot.logged = true;
        slot.failed = true;
        slot
    }

    /// The recipient that is logged, or else a pending one, is marked.
    pub(crate) fn marked(self) -> Slot
        ensures { result ≡ with_slot_mark self }
    {
        let mut slot = self;
        if slot.marks < slot.recipients {
            slot.marks += 1;
        }
        if slot.logged {
            slot.logged = false;
        } else {
            slot.pending = slot.pending.saturating_sub(1);
        }
        slot
    }

    /// No mark of it may be lost any more.
    pub(crate) fn synced(self) -> Slot
        ensures { result ≡ cleared self }
    {
        let mut slot = self;
        slot.marks = 0;
        slot
    }

    /// It was read up to this position.
    pub(crate) fn read_up(self, to: u32) -> Slot
        ensures { result ≡ read_up to self }
    {
        let mut slot = self;
        slot.unread = to;
        slot
    }

    /// A record of it can't be read.
    pub(crate) fn damaged(self) -> Slot
        ensures { result ≡ with_damage self }
    {
        let mut slot = self;
        slot.unread = slot.recipients;
        slot.damaged = true;
        slot
    }

    /// Its bounce is stored.
    pub(crate) fn bounced(self) -> Slot
        ensures { result ≡ with_bounce self }
    {
        let mut slot = self;
        slot.bounced = true;
        slot
    }
}
