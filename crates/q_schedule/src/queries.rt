//! What is asked of the lines and the peers.
ghost use Rattle.std.specs.Prelude.{◌≡◌, ◌<◌, ◌+◌, ◌-◌, ◌^◌, find, length};
ghost use Rattle.std.specs.List.{list_any};
ghost use Rattle.std.specs.Option.{option_copied};
ghost use Rattle.q_jobs.specs.Jobs.{behind_jobs, first_job, is_job_of};
ghost use Rattle.q_rounds.specs.Rounds.{is_passed, next_in, rows_left};
ghost use Rattle.q_turns.specs.Suspending.{HaveNoSpace};
ghost use Rattle.q_turns.specs.Turns.{is_able, last_for, line_at, waiting_for};

use crate::schedule::Schedule;
use q_dest::Sites;
use q_jobs::Job;
use q_model::{Id, Site};
use q_rounds::Peer;

impl Schedule {
    /// How many transports there are.
    pub fn transports(&self) -> usize
        ensures { result ≡ length self.now.lines }
    {
        self.turns.transports()
    }

    /// How many jobs more have room at the transport.
    pub fn spare_jobs(&self, transport: usize) -> u32
        requires { transport < length self.now.lines }
        ensures { result ≡ self.now.line_room - length (line_at transport self.now.lines) }
    {
        self.turns.spare_jobs(transport)
    }

    /// The job of a message.
    pub fn job(&self, transport: usize, id: Id) -> Option<&Job>
        ensures { option_copied result ≡ find (is_job_of id) (line_at transport self.now.lines) }
    {
        self.turns.job(transport, id)
    }

    /// The first job of a transport.
    pub fn first(&self, transport: usize) -> Option<&Job>
        ensures { option_copied result ≡ first_job (line_at transport self.now.lines) }
    {
        self.turns.first(transport)
    }

    /// The job right behind that of a message.
    pub fn behind(&self, transport: usize, id: Id) -> Option<&Job>
        ensures { option_copied result
            ≡ first_job (behind_jobs id (line_at transport self.now.lines)) }
    {
        self.turns.behind(transport, id)
    }

    /// The first job of the transport of which a row may be sent to its site. The walk passes only
    /// sites that are full or dead, and aren't suspended.
    pub fn current(&self, transport: usize, sites: &Sites) -> Option<&Job>
        requires { HaveNoSpace sites.now.items self.now.suspended }
        ensures { option_copied result
            ≡ find (λ j. is_able sites.now.items self.now.peers transport j.id)
            (line_at transport self.now.lines) }
    {
        self.turns.current(transport, sites)
    }

    /// The peer of the message at the transport that is sent to next: of those whose site has
    /// space the one that was sent to longest ago, before it those that never were, and among
    /// these the first that came.
    pub fn next(&self, transport: usize, id: Id, sites: &Sites) -> Option<&Peer>
        ensures { option_copied result ≡ next_in sites.now.items transport id self.now.peers }
    {
        self.turns.next(transport, id, sites)
    }

    /// The number of the delivery in which the message was last sent to the site, or 0.
    pub fn last(&self, id: Id, site: &Site) -> u64
        ensures { result ≡ last_for id site.now self.now.peers }
    {
        self.turns.last(id, site)
    }

    /// How many rows of the message wait for the site.
    pub fn waiting(&self, id: Id, site: &Site) -> u32
        ensures { result ≡ waiting_for id site.now self.now.peers }
    {
        self.turns.waiting(id, site)
    }

    /// How many rows of the message wait at the transport.
    pub fn rows_left(&self, id: Id, transport: usize) -> u64
        ensures value { result ≡ rows_left id transport self.now.peers }
        ensures few { result + 2 ^ 32 < 2 ^ 64 }
    {
        self.turns.rows_left(id, transport)
    }

    /// Whether the rows of a peer may be left in another order than that in which they came.
    pub fn has_passed(&self) -> bool
        ensures { result ≡ list_any is_passed self.now.peers }
    {
        self.turns.has_passed()
    }
}
