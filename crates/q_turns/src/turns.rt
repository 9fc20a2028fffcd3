//! The lines of all transports, and their peers.
ghost use Rattle.std.specs.Prelude.{◌≡◌, ◌<◌, ◌≤◌, ◌-◌, ◌^◌, [], find, IfOk, length, replicate};
ghost use Rattle.std.specs.Option.{option_copied};
ghost use Rattle.q_jobs.specs.Jobs.{behind_jobs, first_job, is_job_of};
ghost use Rattle.q_rounds.specs.Rounds.{AreStartsApart};
ghost use Rattle.q_turns.specs.Sound.{jobs_of};
ghost use Rattle.q_turns.specs.Turns.{AreApart, AreLinesApart, HaveJobs, line_at};

use crate::lane::Lane;
use q_heads::Heads;
use q_jobs::{Job, Line};
use q_keyed::Keyed;
use q_model::Id;
use q_rounds::Rounds;
use q_sorted::Sorted;
use q_suspended::Suspended;
use std::alloc::{AllocError, Global};
use std::marker::Model;

/// The jobs of all transports, and their peers. A contract sees them as lists.
#[derive(Debug, Drop)]
pub struct Turns {
    pub(crate) lines: Vec<Line>,
    pub(crate) peers: Rounds,
    /// The sites of peers, each with a number.
    pub(crate) lanes: Keyed<Lane>,
    /// The numbers of peers, in the lanes of their sites by the ranks of their jobs.
    pub(crate) heads: Heads,
    /// The numbers of peers, by their messages.
    pub(crate) messages: Sorted,
    /// The sites whose lanes aren't walked along.
    pub(crate) suspended: Suspended,
    /// How many jobs each line has room for.
    pub(crate) line_room: u32,
}

impl Model for Turns {
    ghost use Rattle.q_keyed.specs.Numbered.{values_of};
    ghost use Rattle.q_turns.specs.Sound.{IsSound, jobs_of};
    ghost use Rattle.q_turns.specs.Turns.{Turning};

    ghost Value = { Turning };

    ghost view = { λ a. record {
      lines = jobs_of a.lines.items;
      peers = values_of a.peers.items;
      suspended = a.suspended.items;
      line_room = a.line_room;
      room = a.peers.room;
      suspended_room = a.suspended.room;
    } };

    ghost invariant = { λ a. IsSound a.lines.items a.peers a.lanes a.heads a.messages a.suspended
        a.line_room };
}

/// So many lines without a job, each with room for so many.
fn empty_lines(alloc: Global, transports: u8, room: u32) -> Result<Vec<Line>, AllocError>
    requires some { 1 ≤ room }
    requires few { room < 2 ^ 30 }
    ensures { IfOk result (λ lines. lines.items
        ≡ replicate transports (record { jobs = []; room = room; ranks = [] })) }
{
    let mut lines = Vec::new(alloc);
    for _transport in 0..transports {
        let line = Line::new(alloc, room)?;
        lines.push(line)?;
    }
    Ok(lines)
}

impl Turns {
    /// No job and no peer, room for so many jobs in each line of so many transports, for so many
    /// peers, and for so many sites that are suspended. An error says that memory is wanting.
    pub fn new(
        alloc: Global,
        transports: u8,
        line_room: u32,
        room: u32,
        suspended_room: u32,
    ) -> Result<Turns, AllocError>
        requires jobs { 1 ≤ line_room }
        requires few_jobs { line_room < 2 ^ 30 }
        requires peers { 1 ≤ room }
        requires few_peers { room < 2 ^ 30 }
        requires suspended { 1 ≤ suspended_room }
        requires few_suspended { suspended_room < 2 ^ 30 }
        ensures { IfOk result (λ made. made ≡ record {
          lines = replicate transports [];
          peers = [];
          suspended = [];
          line_room = line_room;
          room = room;
          suspended_room = suspended_room;
        }) }
    {
        let lines = empty_lines(alloc, transports, line_room)?;
        let peers = Rounds::new(alloc, room)?;
        let lanes = Keyed::new(alloc, room)?;
        let heads = Heads::new(alloc, room, room)?;
        let messages = Sorted::new(alloc, room)?;
        let suspended = Suspended::new(alloc, suspended_room)?;
        Ok(Turns {
            lines,
            peers,
            lanes,
            heads,
            messages,
            suspended,
            line_room,
        })
    }

    /// No two peers are of one message and site or were last sent to in one delivery, each has a
    /// job and rows that wait, and there are no more than have room, whatever was called: this does
    /// nothing, and is there for callers whose proofs want to know it.
    pub fn stand_apart(&self)
        ensures lines { AreLinesApart self.now.lines }
        ensures apart { AreApart self.now.peers }
        ensures starts { AreStartsApart self.now.peers }
        ensures jobs { HaveJobs self.now.lines self.now.peers }
        ensures within { length self.now.peers ≤ self.now.room }
        ensures few { self.now.room < 2 ^ 30 }
    {
        self.peers.stand_apart();
    }

    /// How many transports there are.
    pub fn transports(&self) -> usize
        ensures { result ≡ length self.now.lines }
    {
        self.lines.len()
    }

    /// How many jobs more have room at the transport.
    pub fn spare_jobs(&self, transport: usize) -> u32
        requires { transport < length self.now.lines }
        ensures { result ≡ self.now.line_room - length (line_at transport self.now.lines) }
    {
        self.lines[transport].spare()
    }

    /// The job of a message.
    pub fn job(&self, transport: usize, id: Id) -> Option<&Job>
        ensures { option_copied result ≡ find (is_job_of id) (line_at transport self.now.lines) }
    {
        let line = self.lines.get(transport)?;
        line.job(id)
    }

    /// The first job of a transport.
    pub fn first(&self, transport: usize) -> Option<&Job>
        ensures { option_copied result ≡ first_job (line_at transport self.now.lines) }
    {
        let line = self.lines.get(transport)?;
        line.first()
    }

    /// The job right behind that of a message.
    pub fn behind(&self, transport: usize, id: Id) -> Option<&Job>
        ensures { option_copied result
            ≡ first_job (behind_jobs id (line_at transport self.now.lines)) }
    {
        let line = self.lines.get(transport)?;
        line.behind(id)
    }
}
