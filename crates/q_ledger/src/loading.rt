//! Which message may read, and how far.
ghost use Rattle.std.specs.Prelude.{◌≡◌, false, find};
ghost use Rattle.std.specs.Option.{option_copied, option_map_or};
ghost use Rattle.q_model.specs.Book.{message_of};
ghost use Rattle.q_ledger.specs.Deciding.{load_in, load_of_slot, loads_in, reads_on_in};
ghost use Rattle.q_ledger.specs.Held.{may_read_in};
ghost use Rattle.q_ledger.specs.Worlds.{world_of};

use crate::admitted::Slot;
use crate::batches::load_end;
use crate::ledger::Ledger;
use crate::message::Message;
use crate::world::World;
use q_model::{Entry, Id};

impl Ledger {
    /// Whether the message has something unread and nothing that waits, and there is room for it.
    pub(crate) fn may_read(&self, world: &World, row: &Slot, free: u64) -> bool
        ensures { result ≡ may_read_in (world_of world.now) self.now row.now free }
    {
        let unread = u64::from(row.left());
        0 < unread
            && !self.has_waiting(row.id)
            && u64::from(world.params.qmgr_message_recipient_minimum).min(unread) <= free
    }

    /// Whether the message may read so far.
    fn reads_on(&self, world: &World, slot: &Slot, from: u32, to: u32, message: &Message) -> bool
        ensures { result ≡ reads_on_in (world_of world.now) self.now slot.now from to message.now }
    {
        let free = self.free(world);
        self.may_read(world, slot, free)
            && from == slot.unread
            && to as usize == load_end(message, from as usize, free)
    }

    /// The same, where it is in the book.
    fn may_load_of(&self, world: &World, id: Id, from: u32, to: u32, slot: &Slot) -> bool
        ensures { result
            ≡ option_map_or (reads_on_in (world_of world.now) self.now slot.now from to)
            (message_of self.now.ledger.book id) false }
    {
        match self.book.message(id) {
            Some(message) => self.reads_on(world, slot, from, to, message),
            None => false,
        }
    }

    pub(crate) fn may_load(&self, world: &World, id: Id, from: u32, to: u32) -> bool
        ensures { result ≡ loads_in (world_of world.now) self.now id from to }
    {
        match self.slot(id) {
            Some(slot) => self.may_load_of(world, id, from, to, slot),
            None => false,
        }
    }

    /// The first message that may read.
    fn first_reader(&self, world: &World, free: u64) -> Option<&Slot>
        ensures { option_copied result
            ≡ find (λ x. may_read_in (world_of world.now) self.now x free) self.now.slots }
    {
        self.admitted
            .iter()
            .find(|slot| self.may_read(world, slot, free))
    }

    /// What a message reads next, as far as there is room.
    fn load_of(&self, world: &World, slot: &Slot) -> Option<Entry>
        ensures { result ≡ load_of_slot (world_of world.now) self.now slot.now }
    {
        match self.book.message(slot.id) {
            Some(message) => {
                let end = load_end(message, slot.unread as usize, self.free(world));
                Some(Entry::Load {
                    id: slot.id,
                    from: slot.unread,
                    to: (end as u64).min(u64::from(slot.recipients)) as u32,
                })
            }
            None => None,
        }
    }

    /// The load of the first message that may read.
    pub(crate) fn next_load(&self, world: &World) -> Option<Entry>
        ensures { result ≡ load_in (world_of world.now) self.now }
    {
        match self.first_reader(world, self.free(world)) {
            Some(slot) => self.load_of(world, slot),
            None => None,
        }
    }
}
