//! Changes of a message in memory.
ghost use Rattle.std.specs.Prelude.{◌≡◌, find, map, None, Some};
ghost use Rattle.q_pool.specs.Kept.{counted_at, is_of, kept_at};
ghost use Rattle.q_pool.specs.Slots.{cleared, read_up, with_bounce, with_damage, with_log, with_slot_mark};
ghost use Rattle.q_pool.specs.declared.slot.Slot.{Slot as SlotOf};

use crate::kept::Kept;
use crate::pool::Pool;
use crate::slot::Slot;
use q_model::Id;

impl Pool {
    /// Puts another slot and counts in the place of those that are kept.
    fn put(&mut self, found: Kept, slot: Slot)
        requires found { find (is_of found.slot.id) self.old.items ≡ Some found }
        requires same { slot.id ≡ found.slot.id }
        ensures { (f : SlotOf → SlotOf) → f found.slot ≡ slot → self.new ≡ record self.old
            { items = map (kept_at found.slot.id f) self.old.items } }
    {
        self.stand_apart();
        let kept = Kept {
            slot,
            waiting: found.waiting,
            flying: found.flying,
            unsettled: found.unsettled,
        };
        let rank = kept.rank(self.sync_limit, self.minimum);
        self.register.set(&slot.id, kept, rank);
    }

    /// A failure of a pending recipient is logged.
    pub fn log(&mut self, id: Id)
        ensures { self.new ≡ record self.old { items = map (kept_at id with_log) self.old.items } }
    {
        if let Some(kept) = self.get(id).copied() {
            self.put(kept, kept.slot.logged());
        }
    }

    /// The recipient that is logged, or else a pending one, is marked.
    pub fn mark(&mut self, id: Id)
        ensures { self.new ≡ record self.old
            { items = map (kept_at id with_slot_mark) self.old.items } }
    {
        if let Some(kept) = self.get(id).copied() {
            self.put(kept, kept.slot.marked());
        }
    }

    /// No mark of the message may be lost any more.
    pub fn sync(&mut self, id: Id)
        ensures { self.new ≡ record self.old { items = map (kept_at id cleared) self.old.items } }
    {
        if let Some(kept) = self.get(id).copied() {
            self.put(kept, kept.slot.synced());
        }
    }

    /// The message was read up to this position.
    pub fn read(&mut self, id: Id, to: u32)
        ensures { self.new ≡ record self.old
            { items = map (kept_at id (read_up to)) self.old.items } }
    {
        if let Some(kept) = self.get(id).copied() {
            self.put(kept, kept.slot.read_up(to));
        }
    }

    /// A record of the message can't be read: nothing more of it is to be read.
    pub fn damage(&mut self, id: Id)
        ensures { self.new ≡ record self.old
            { items = map (kept_at id with_damage) self.old.items } }
    {
        if let Some(kept) = self.get(id).copied() {
            self.put(kept, kept.slot.damaged());
        }
    }

    /// The bounce of the message is stored.
    pub fn bounce(&mut self, id: Id)
        ensures { self.new ≡ record self.old
            { items = map (kept_at id with_bounce) self.old.items } }
    {
        if let Some(kept) = self.get(id).copied() {
            self.put(kept, kept.slot.bounced());
        }
    }

    /// So many rows of the message wait, so many deliveries of it are in flight, and so many
    /// outcomes of it aren't settled.
    pub fn count(&mut self, id: Id, waiting: u64, flying: u64, unsettled: u64)
        ensures { self.new ≡ record self.old
            { items = map (counted_at id waiting flying unsettled) self.old.items } }
    {
        let Some(kept) = self.get(id).copied() else {
            return;
        };
        self.stand_apart();
        let value = Kept {
            slot: kept.slot,
            waiting,
            flying,
            unsettled,
        };
        let rank = value.rank(self.sync_limit, self.minimum);
        self.register.set(&id, value, rank);
    }
}
