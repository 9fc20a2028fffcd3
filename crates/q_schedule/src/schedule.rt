//! The schedule.
ghost use Rattle.std.specs.Prelude.{◌≡◌, ◌<◌, ◌≤◌, ◌^◌, [], IfOk, length, replicate};
ghost use Rattle.std.specs.List.{AllByRecursion};
ghost use Rattle.q_rounds.specs.Rounds.{AreStartsApart};
ghost use Rattle.q_schedule.specs.Schedule.{AreApart as AreMessagesApart};
ghost use Rattle.q_turns.specs.Turns.{AreApart, AreLinesApart, HaveJobs};

use crate::ranked::Ranked;
use q_candidates::Candidates;
use q_keyed::Keyed;
use q_model::Id;
use q_turns::Turns;
use std::alloc::{AllocError, Global};
use std::marker::Model;

/// The jobs of all transports, their peers, and the messages in memory. A contract sees them as
/// lists.
#[derive(Debug, Drop)]
pub struct Schedule {
    pub(crate) turns: Turns,
    pub(crate) messages: Keyed<Ranked>,
    pub(crate) candidates: Candidates,
    /// The message whose candidates aren't kept.
    pub(crate) stale: Option<Id>,
    /// The rank of the next message that is admitted.
    pub(crate) next: u64,
}

impl Model for Schedule {
    ghost use Rattle.q_keyed.specs.Numbered.{values_of};
    ghost use Rattle.q_schedule.specs.Schedule.{Scheduling};
    ghost use Rattle.q_schedule.specs.Sound.{IsSound, messages_of};

    ghost Value = { Scheduling };

    ghost view = { λ a. record {
      lines = a.turns.lines;
      peers = a.turns.peers;
      suspended = a.turns.suspended;
      messages = messages_of (values_of a.messages.items);
      line_room = a.turns.line_room;
      room = a.turns.room;
      suspended_room = a.turns.suspended_room;
      message_room = a.messages.room;
    } };

    ghost invariant = { λ a. IsSound a.turns a.messages a.candidates a.stale a.next };
}

impl Schedule {
    /// No job, no peer and no message, and room for so many messages, of which each may have a job
    /// at each of so many transports, for so many peers, and for so many sites that are suspended. An
    /// error says that memory is wanting.
    pub fn new(
        alloc: Global,
        transports: u8,
        messages: u32,
        peers: u32,
        suspended: u32,
    ) -> Result<Schedule, AllocError>
        requires messages { 1 ≤ messages }
        requires few_messages { messages < 2 ^ 30 }
        requires peers { 1 ≤ peers }
        requires few_peers { peers < 2 ^ 30 }
        requires suspended { 1 ≤ suspended }
        requires few_suspended { suspended < 2 ^ 30 }
        ensures { IfOk result (λ made. made ≡ record {
          lines = replicate transports [];
          peers = [];
          suspended = [];
          messages = [];
          line_room = messages;
          room = peers;
          suspended_room = suspended;
          message_room = messages;
        }) }
    {
        let turns = Turns::new(alloc, transports, messages, peers, suspended)?;
        let messages = Keyed::new(alloc, messages)?;
        let candidates = Candidates::new(alloc, peers)?;
        Ok(Schedule {
            turns,
            messages,
            candidates,
            stale: None,
            next: 0,
        })
    }

    /// No two messages have one id, no two peers are of one message and site or were last sent to in
    /// one delivery, each has a job and rows that wait, and there are no more than have room,
    /// whatever was called: this does nothing, and is there for callers whose proofs want to know
    /// it.
    pub fn stand_apart(&self)
        ensures lines { AreLinesApart self.now.lines }
        ensures apart { AreApart self.now.peers }
        ensures starts { AreStartsApart self.now.peers }
        ensures jobs { HaveJobs self.now.lines self.now.peers }
        ensures within { length self.now.peers ≤ self.now.room }
        ensures few { self.now.room < 2 ^ 30 }
        ensures messages { AreMessagesApart self.now.messages }
        ensures messages_within { length self.now.messages ≤ self.now.message_room }
        ensures few_unread { AllByRecursion (λ m. m.unread < 2 ^ 32) self.now.messages }
    {
        self.turns.stand_apart();
        self.messages.stand_apart();
    }
}
