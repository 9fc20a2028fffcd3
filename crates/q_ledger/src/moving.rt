//! A message goes to another queue.
ghost use Rattle.std.specs.Prelude.{◌≡◌, map};
ghost use Rattle.q_model.specs.BookChanges.{move_message};
ghost use Rattle.q_ledger.specs.Changed.{moved, stood_at};

use crate::book::Book;
use crate::ids::same_id;
use crate::ledger::Ledger;
use crate::message::Message;
use q_model::{Id, Place};

impl Message {
    /// Stands at the place, where it is the message of the id.
    fn stand_at(&mut self, id: Id, place: Place)
        ensures { self.new ≡ stood_at id place self.old }
    {
        if same_id(self.id, id) {
            self.place = place;
        }
    }
}

fn stand_at(messages: &mut [Message], id: Id, place: Place)
    ensures { messages.new ≡ map (stood_at id place) messages.old }
{
    for message in messages.iter_mut() {
        message.stand_at(id, place);
    }
}

impl Book {
    fn move_message(&mut self, id: Id, place: Place)
        ensures { self.new ≡ move_message self.old id place }
    {
        stand_at(&mut self.messages, id, place);
    }
}

impl Ledger {
    /// The message stands at the place.
    pub(crate) fn move_message(&mut self, id: Id, place: Place)
        ensures { self.new ≡ moved id place self.old }
    {
        self.book.move_message(id, place);
    }
}
