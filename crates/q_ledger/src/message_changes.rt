//! How messages of the book change as failures and marks are written.
ghost use Rattle.std.specs.Prelude.{◌≡◌, map, OnErr, OnOk, position};
ghost use Rattle.std.specs.List.{enumerate_from};
ghost use Rattle.q_ledger.specs.Marked.{changed_of, failure_added, marked_recipient, synced_recipient, with_messages};
ghost use Rattle.q_model.specs.BookChanges.{change_message};
ghost use Rattle.q_model.specs.Ids.{id_eq};
ghost use Rattle.q_model.specs.Logs.{with_failure};
ghost use Rattle.q_model.specs.Marking.{mark_one, with_mark};
ghost use Rattle.q_model.specs.Marks.{sync_mark};
ghost use Rattle.q_model.specs.Syncs.{sync_all};

use crate::book::Book;
use crate::ids::same_id;
use crate::message::{Message, Recipient, count_written};
use q_model::{Failure, Id, Mark, NoMemory};

fn synced(mark: Mark) -> Mark
    ensures { result ≡ sync_mark mark }
{
    match mark {
        Mark::Unmarked => Mark::Unmarked,
        Mark::Written => Mark::Synced,
        Mark::Synced => Mark::Synced,
    }
}

impl Recipient {
    fn sync(&mut self)
        ensures { self.new ≡ synced_recipient self.old }
    {
        self.mark = synced(self.mark);
    }

    fn mark(&mut self)
        ensures { self.new ≡ marked_recipient self.old }
    {
        self.mark = Mark::Written;
    }
}

/// No mark of these may be lost any more.
fn sync_recipients(recipients: &mut [Recipient])
    ensures { recipients.new ≡ map synced_recipient recipients.old }
{
    for recipient in recipients.iter_mut() {
        recipient.sync();
    }
}

/// The recipient at this position is marked.
fn mark_recipient(recipients: &mut [Recipient], position: u32)
    ensures { recipients.new ≡ map (mark_one position) (enumerate_from 0 recipients.old) }
{
    let place = position as usize;
    if place < recipients.len() {
        recipients[place].mark();
    }
}

impl Message {
    fn sync(&mut self)
        ensures { self.new ≡ sync_all self.old }
    {
        sync_recipients(&mut self.recipients);
        self.written = count_written(&self.recipients);
    }

    fn mark(&mut self, position: u32)
        ensures { self.new ≡ with_mark position self.old }
    {
        mark_recipient(&mut self.recipients, position);
        self.written = count_written(&self.recipients);
    }

    fn add_failure(&mut self, failure: Failure) -> Result<(), NoMemory>
        ensures added { OnOk result (self.new ≡ with_failure failure self.old) }
        ensures lack { OnErr result (self.new ≡ self.old) }
    {
        self.failures.push(failure)?;
        Ok(())
    }

    fn sync_of(&mut self, id: Id)
        ensures { self.new ≡ changed_of id sync_all self.old }
    {
        if same_id(self.id, id) {
            self.sync();
        }
    }

    fn mark_of(&mut self, id: Id, position: u32)
        ensures { self.new ≡ changed_of id (with_mark position) self.old }
    {
        if same_id(self.id, id) {
            self.mark(position);
        }
    }
}

fn sync_messages(messages: &mut [Message], id: Id)
    ensures { messages.new ≡ map (changed_of id sync_all) messages.old }
{
    for message in messages.iter_mut() {
        message.sync_of(id);
    }
}

fn mark_messages(messages: &mut [Message], id: Id, position: u32)
    ensures { messages.new ≡ map (changed_of id (with_mark position)) messages.old }
{
    for message in messages.iter_mut() {
        message.mark_of(id, position);
    }
}

fn place_of(messages: &[Message], id: Id) -> Option<usize>
    ensures { result ≡ position (λ m. id_eq m.id id) messages.now }
{
    messages.iter().position(|message| same_id(message.id, id))
}

/// The failure is stored with the message of this id.
fn add_failure(messages: &mut [Message], id: Id, failure: Failure) -> Result<(), NoMemory>
    ensures added { OnOk result (messages.new ≡ failure_added id failure messages.old) }
    ensures lack { OnErr result (messages.new ≡ messages.old) }
{
    let Some(place) = place_of(messages, id) else {
        return Ok(());
    };
    messages[place].add_failure(failure)?;
    Ok(())
}

impl Book {
    pub(crate) fn sync(&mut self, id: Id)
        ensures { self.new ≡ change_message self.old id sync_all }
    {
        sync_messages(&mut self.messages, id);
    }

    pub(crate) fn mark(&mut self, id: Id, position: u32)
        ensures { self.new ≡ change_message self.old id (with_mark position) }
    {
        mark_messages(&mut self.messages, id, position);
    }

    pub(crate) fn add_failure(&mut self, id: Id, failure: Failure) -> Result<(), NoMemory>
        ensures added { OnOk result (self.new
            ≡ with_messages (failure_added id failure self.old.messages) self.old) }
        ensures lack { OnErr result (self.new ≡ self.old) }
    {
        add_failure(&mut self.messages, id, failure)?;
        Ok(())
    }
}
