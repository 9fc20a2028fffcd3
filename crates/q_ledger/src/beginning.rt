//! A life begins on the book as it stands.
ghost use Rattle.std.specs.Prelude.{◌≡◌, [], filter, IfOk, map, None, OnErr, OnOk, replicate};
ghost use Rattle.q_model.specs.Book.{ids_at};
ghost use Rattle.q_model.specs.Places.{is_active};
ghost use Rattle.q_ledger.specs.Changed.{begun, reopened};
ghost use Rattle.q_ledger.specs.Worlds.{world_of};

use crate::book::Book;
use crate::clock::Clock;
use crate::ledger::Ledger;
use crate::line::Line;
use crate::message::Message;
use crate::world::World;
use q_model::{Id, Mode, NoMemory};
use std::alloc::Global;

/// So many lines without a job.
fn empty_lines(alloc: Global, count: u8) -> Result<Vec<Line>, NoMemory>
    ensures { IfOk result (λ lines. lines.items ≡ replicate count []) }
{
    let mut lines = Vec::new(alloc);
    for _i in 0..count {
        lines.push(Line::new(alloc)).map_err(|_| NoMemory)?;
    }
    Ok(lines)
}

/// The ids of those of these messages that are in active.
fn ids_in_active(alloc: Global, messages: &[Message]) -> Result<Vec<Id>, NoMemory>
    ensures { IfOk result (λ ids. ids.items
        ≡ map (λ m. m.id) (filter (λ m. is_active m.place) messages.now)) }
{
    let mut ids = Vec::new(alloc);
    for message in messages.iter() {
        if message.is_active() {
            ids.push(message.id)?;
        }
    }
    Ok(ids)
}

impl Book {
    /// The ids of the messages in active.
    fn active_ids(&self, alloc: Global) -> Result<Vec<Id>, NoMemory>
        ensures { IfOk result (λ ids. ids.items ≡ ids_at is_active self.now) }
    {
        let ids = ids_in_active(alloc, &self.messages)?;
        Ok(ids)
    }
}

impl Ledger {
    /// Nothing is known but the book, which is of this generation.
    fn reopen(&mut self, generation: u32, mode: Mode, lines: Vec<Line>, leftovers: Vec<Id>)
        ensures { self.new ≡ record {
          ledger = record (reopened generation mode self.old) { lines = lines.items };
          slots = [];
          leftovers = leftovers.items;
          left = None;
        } }
    {
        self.book.generation = generation;
        self.mode = mode;
        self.clock = Clock::new(0);
        self.timed = false;
        self.next_run = 0;
        self.scan = None;
        self.asked = None;
        self.ignores = false;
        self.deferred_follows = false;
        self.admitted.clear();
        self.leftovers = leftovers;
        self.waiting.clear();
        self.flights.clear();
        self.served.clear();
        self.unsettled.clear();
        self.lines = lines;
        self.sites.clear();
        self.synced.clear();
        self.left = None;
    }

    /// A life begins: nothing is known but the book.
    pub(crate) fn begin(
        &mut self,
        alloc: Global,
        world: &World,
        generation: u32,
        mode: Mode,
    ) -> Result<(), NoMemory>
        ensures ok { OnOk result (self.new ≡ begun (world_of world.now) generation mode self.old) }
        ensures err { OnErr result (self.new ≡ self.old) }
    {
        let lines = empty_lines(alloc, world.table.transports())?;
        let leftovers = self.book.active_ids(alloc)?;
        self.reopen(generation, mode, lines, leftovers);
        Ok(())
    }
}
