//! A message leaves active, or its bounce comes.
ghost use Rattle.std.specs.Prelude.{◌≡◌, filter, IfOk, not, OnErr, OnOk};
ghost use Rattle.q_model.specs.BookChanges.{add_message, remove_message};
ghost use Rattle.q_model.specs.Ids.{id_eq};
ghost use Rattle.q_ledger.specs.Changed.{bounce_to, bounced, forgotten, removed, sender_of, slots_without};
ghost use Rattle.q_ledger.specs.Following.{Changes};

use crate::admitted::Slot;
use crate::book::Book;
use crate::clock::Clock;
use crate::ids::{bounce_of, same_id};
use crate::ledger::Ledger;
use crate::message::{Message, Recipient, count_written};
use q_model::{Address, Entry, Id, Mark, Moment, NoMemory, Place};
use std::alloc::Global;

fn is_another_slot(slot: &Slot, id: Id) -> bool
    ensures { result ≡ not (id_eq slot.now.id id) }
{
    !same_id(slot.id, id)
}

fn drop_slot(slots: &mut Vec<Slot>, id: Id)
    ensures { slots.new.items ≡ slots_without id slots.old.items }
{
    slots.retain(|slot| is_another_slot(slot, id));
}

fn is_another_message(message: &Message, id: Id) -> bool
    ensures { result ≡ not (id_eq message.now.id id) }
{
    !same_id(message.id, id)
}

fn drop_message(messages: &mut Vec<Message>, id: Id)
    ensures { messages.new.items ≡ filter (λ m. not (id_eq m.id id)) messages.old.items }
{
    messages.retain(|message| is_another_message(message, id));
}

impl Book {
    fn remove_message(&mut self, id: Id)
        ensures { self.new ≡ remove_message self.old id }
    {
        drop_message(&mut self.messages, id);
    }

    /// A message more.
    pub(crate) fn add_message(&mut self, message: Message) -> Result<(), NoMemory>
        ensures ok { OnOk result (self.new ≡ add_message self.old message) }
        ensures err { OnErr result (self.new ≡ self.old) }
    {
        self.messages.push(message)?;
        Ok(())
    }
}

/// The bounce of the message of this id and this sender.
fn bounce_to(alloc: Global, clock: Clock, id: Id, sender: Address) -> Result<Message, NoMemory>
    ensures { IfOk result (λ m. m ≡ bounce_to clock.seconds id sender) }
{
    let mut recipients = Vec::new(alloc);
    recipients.push(Recipient {
        address: sender,
        mark: Mark::Unmarked,
    })?;
    let written = count_written(&recipients);
    Ok(Message {
        id: bounce_of(id),
        sender: None,
        arrival: clock.seconds,
        recipients,
        failures: Vec::new(alloc),
        place: Place::Incoming,
        written,
    })
}

impl Ledger {
    fn forget(&mut self, id: Id)
        ensures { self.new ≡ forgotten id self.old }
    {
        drop_slot(&mut self.admitted, id);
    }

    pub(crate) fn defer(&mut self, id: Id, due: Moment)
        ensures { Changes self.old (Entry.Defer id due) self.new }
    {
        self.move_message(id, Place::Deferred(due));
        self.forget(id);
    }

    pub(crate) fn back(&mut self, id: Id)
        ensures { Changes self.old (Entry.Back id) self.new }
    {
        self.move_message(id, Place::Incoming);
        self.drop_leftover(id);
    }

    fn remove_message(&mut self, id: Id)
        ensures { self.new ≡ removed id self.old }
    {
        self.book.remove_message(id);
    }

    pub(crate) fn remove(&mut self, id: Id)
        ensures { Changes self.old (Entry.Remove id) self.new }
    {
        self.remove_message(id);
        self.forget(id);
        self.drop_leftover(id);
    }

    fn sender_of(&self, id: Id) -> Option<Address>
        ensures { result ≡ sender_of self.now.ledger id }
    {
        match self.book.message(id) {
            Some(message) => message.sender,
            None => None,
        }
    }

    fn add_bounce(&mut self, alloc: Global, id: Id) -> Result<(), NoMemory>
        ensures ok { OnOk result (self.new ≡ bounced id self.old) }
        ensures err { OnErr result (self.new ≡ self.old) }
    {
        match self.sender_of(id) {
            Some(sender) => {
                let message = bounce_to(alloc, self.clock, id, sender)?;
                self.book.add_message(message)?;
                Ok(())
            }
            None => Ok(()),
        }
    }

    /// The bounce stands in incoming.
    pub(crate) fn bounce(&mut self, alloc: Global, id: Id) -> Result<(), NoMemory>
        ensures ok { OnOk result (Changes self.old (Entry.Bounce id) self.new) }
        ensures err { OnErr result (self.new ≡ self.old) }
    {
        self.add_bounce(alloc, id)?;
        Ok(())
    }
}
