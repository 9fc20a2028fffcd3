//! A message comes into memory.
ghost use Rattle.std.specs.Prelude.{None, OnErr, OnOk, if◌then◌else◌, is_some, option_map, ◌&&◌, ◌≡◌};
ghost use Rattle.q_model.specs.Admissions.{cause_gone, delivers, has_room, may_admit};
ghost use Rattle.q_model.specs.Alternation.{pick};
ghost use Rattle.q_model.specs.Book.{message_of};
ghost use Rattle.q_ledger.specs.Picks.{pick_is};
ghost use Rattle.q_ledger.specs.Beside.{recipients_in};
ghost use Rattle.q_ledger.specs.Changed.{entered};
ghost use Rattle.q_ledger.specs.Following.{Changes};
ghost use Rattle.q_ledger.specs.Worlds.{world_of};

use crate::admitted::Slot;
use crate::book::Book;
use crate::ids::{cause_of, same_id};
use crate::ledger::Ledger;
use crate::picking::Picked;
use crate::world::World;
use q_model::{Entry, Id, Mode, NoMemory, Place};

/// Whether a bounce stands alone: the message that it is of is gone.
pub(crate) fn is_cause_gone(book: &Book, id: Id) -> bool
    ensures { result ≡ cause_gone book.now id }
{
    !(id.bounce && book.stands(cause_of(id)))
}

fn delivers(mode: Mode) -> bool
    ensures { result ≡ delivers mode }
{
    match mode {
        Mode::Deliver => true,
        Mode::Intake => false,
    }
}

impl Ledger {
    /// Whether another message may come into memory.
    pub(crate) fn has_room(&self, world: &World) -> bool
        ensures { result ≡ has_room (world_of world.now) self.now.ledger }
    {
        delivers(self.mode)
            && self.admitted.len() < world.params.qmgr_message_active_limit as usize
            && u64::from(world.params.qmgr_message_recipient_minimum) <= self.free(world)
    }

    /// Whether the message stands, and its cause is gone where it is a bounce.
    fn stands_alone(&self, id: Id) -> bool
        ensures { result ≡ (is_some (message_of self.now.ledger.book id)
            && cause_gone self.now.ledger.book id) }
    {
        self.book.message(id).is_some() && is_cause_gone(&self.book, id)
    }

    pub(crate) fn may_admit(&self, world: &World, id: Id) -> bool
        ensures { result ≡ may_admit (world_of world.now) self.now.ledger id }
    {
        self.has_room(world) && self.is_pick(id) && self.stands_alone(id)
    }

    /// Whether the message may be admitted, where it is what is picked and there is room.
    pub(crate) fn may_admit_picked(&self, id: Id) -> bool
        ensures { result ≡ (is_some (message_of self.now.ledger.book id)
            && cause_gone self.now.ledger.book id) }
    {
        self.stands_alone(id)
    }

    /// How many recipients the message has; none where it doesn't stand.
    pub(crate) fn recipients_of(&self, id: Id) -> u32
        ensures { result ≡ recipients_in self.now.ledger id }
    {
        match self.book.message(id) {
            Some(message) => message.recipient_count(),
            None => 0,
        }
    }

    /// The message is in memory, all of it unread.
    fn enter(&mut self, id: Id) -> Result<(), NoMemory>
        ensures ok { OnOk result (self.new ≡ entered id self.old) }
        ensures err { OnErr result (self.new ≡ self.old) }
    {
        let recipients = self.recipients_of(id);
        self.admitted.push(Slot {
            id,
            unread: 0,
            recipients,
            rows: 0,
        })?;
        Ok(())
    }

    /// The message is in active, all of it unread.
    pub(crate) fn admit(&mut self, id: Id) -> Result<(), NoMemory>
        ensures ok { OnOk result (Changes self.old (Entry.Admit id) self.new) }
        ensures err { OnErr result (self.new ≡ self.old) }
    {
        self.enter(id)?;
        self.pass_pick();
        self.move_message(id, Place::Active);
        Ok(())
    }

    /// What is picked, where another message may come into memory.
    pub(crate) fn next_pick(&self, world: &World) -> Option<Picked>
        ensures { option_map pick_is result
            ≡ (if has_room (world_of world.now) self.now.ledger then pick self.now.ledger
            else None) }
    {
        if self.has_room(world) {
            self.pick()
        } else {
            None
        }
    }
}
