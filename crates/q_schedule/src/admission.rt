//! Messages come into memory, are read and leave.
ghost use Rattle.std.specs.Prelude.{◌≡◌, ◌<◌, ◌++◌, ◌∷◌, [], filter, find, length, map, None, option_map};
ghost use Rattle.q_schedule.specs.Schedule.{is_another, is_message, read_to};

use crate::admitted::Admitted;
use crate::messages::message;
use crate::ranked::Ranked;
use crate::ranking::next_rank;
use crate::schedule::Schedule;
use crate::stale::touch;
use q_model::Id;

impl Schedule {
    /// How many recipients of the message weren't read; None where it isn't in memory.
    pub fn unread(&self, id: Id) -> Option<u32>
        ensures { result ≡ option_map (λ m. m.unread)
            (find (is_message id) self.now.messages) }
    {
        let ranked = message(&self.messages, id)?;
        Some(ranked.message.unread)
    }

    /// A message comes into memory behind all others.
    pub fn admit(&mut self, message: Admitted)
        requires absent { find (is_message message.id) self.old.messages ≡ None }
        requires room { length self.old.messages < self.old.message_room }
        ensures { self.new ≡ record self.old { messages = self.old.messages ++ message ∷ [] } }
    {
        let rank = next_rank(
            &self.turns,
            &mut self.messages,
            &mut self.candidates,
            &mut self.stale,
            self.next,
        );
        touch(
            &self.turns,
            &self.messages,
            &mut self.candidates,
            &mut self.stale,
            message.id,
        );
        let _number = self.messages.push(Ranked { message, rank });
        self.next = rank + 1;
    }

    /// So many recipients of the message aren't read now.
    pub fn read(&mut self, id: Id, unread: u32)
        ensures { self.new ≡ record self.old
            { messages = map (read_to id unread) self.old.messages } }
    {
        let Some(number) = self.messages.find(&id) else {
            return;
        };
        let Some(ranked) = self.messages.get(number).copied() else {
            return;
        };
        touch(
            &self.turns,
            &self.messages,
            &mut self.candidates,
            &mut self.stale,
            id,
        );
        let message = Admitted {
            unread,
            ..ranked.message
        };
        let rank = ranked.rank;
        self.messages.put(number, Ranked { message, rank });
    }

    /// The message leaves memory.
    pub fn remove(&mut self, id: Id)
        ensures { self.new ≡ record self.old
            { messages = filter (is_another id) self.old.messages } }
    {
        let Some(number) = self.messages.find(&id) else {
            return;
        };
        touch(
            &self.turns,
            &self.messages,
            &mut self.candidates,
            &mut self.stale,
            id,
        );
        let _ranked = self.messages.remove(number);
    }
}
