//! The book: all messages of the spool. A trace that begins on an empty spool meets no damaged file.
ghost use Rattle.std.specs.Prelude.{◌≡◌, ◌&&◌, [], is_some};
ghost use Rattle.std.specs.List.{list_any};
ghost use Rattle.std.specs.Option.{option_copied};
ghost use Rattle.q_model.specs.Book.{message_of, stands, stands_in};
ghost use Rattle.q_model.specs.Ids.{id_eq};
ghost use Rattle.q_model.specs.Places.{is_incoming};

use crate::ids::same_id;
use crate::message::{Message, is_incoming};
use q_model::Id;
use std::marker::Model;

/// The last generation and all messages. A contract sees it as the book, without damaged files.
#[derive(Debug, Drop)]
pub(crate) struct Book {
    pub(crate) generation: u32,
    pub(crate) messages: Vec<Message>,
}

impl Model for Book {
    ghost use Rattle.q_model.specs.Book.{Book};

    ghost Value = { Book };

    ghost use Rattle.std.specs.Prelude.{[]};

    ghost view = { λ b. record {
      generation = b.generation;
      messages = b.messages.items;
      damaged = [];
    } };
}

impl Book {
    pub(crate) fn message(&self, id: Id) -> Option<&Message>
        ensures { option_copied result ≡ message_of self.now id }
    {
        self.messages.iter().find(|message| same_id(message.id, id))
    }

    fn has_message(&self, id: Id) -> bool
        ensures { result ≡ is_some (message_of self.now id) }
    {
        self.message(id).is_some()
    }

    /// No file is damaged.
    pub(crate) fn is_whole(&self)
        ensures { self.now.damaged ≡ [] }
    {
        let _ = &self.messages;
    }

    /// Whether a message of this id stands.
    pub(crate) fn stands(&self, id: Id) -> bool
        ensures { result ≡ stands self.now id }
    {
        let _ = &self.messages;
        self.has_message(id)
    }

    /// Whether a message of this id stands in incoming.
    pub(crate) fn stands_in_incoming(&self, id: Id) -> bool
        ensures { result ≡ stands_in is_incoming self.now id }
    {
        let messages = &self.messages;
        stands_in_incoming(messages, id)
    }
}

fn is_incoming_of(message: &Message, id: Id) -> bool
    ensures { result ≡ (id_eq message.now.id id && is_incoming message.now.place) }
{
    same_id(message.id, id) && is_incoming(message.place)
}

fn stands_in_incoming(messages: &[Message], id: Id) -> bool
    ensures { result ≡ list_any (λ m. id_eq m.id id && is_incoming m.place) messages.now }
{
    messages.iter().any(|message| is_incoming_of(message, id))
}
