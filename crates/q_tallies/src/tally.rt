//! The tally of one job. Any entry may be counted; it means something where the first one comes when the
//! job's message is in memory, and all that follow are counted.
ghost use Rattle.std.specs.Prelude.{◌≡◌, [], false, OnErr, OnOk};
ghost use Rattle.q_tallies.specs.Tallying.{counted, ended, is_own, times_of_parent, with_admission, with_preemption, with_start};
ghost use Rattle.q_tallies.specs.Ways.{capped_sum};

use crate::ways::{forget, same_id, times_of};
use q_model::{Entry, Id, NoMemory};
use std::alloc::Global;
use std::marker::Model;

/// A later delivery of this job counts so often: once for each chain of preemptions that leads to it.
#[derive(Clone, Copy, Debug)]
pub struct Way {
    pub id: Id,
    pub times: u64,
}

/// A job, which is one admission of a message at a transport, and what was counted for it.
#[derive(Debug, Drop)]
pub struct Tally {
    id: Id,
    transport: u8,
    count: u64,
    over: bool,
    ways: Vec<Way>,
}

impl Model for Tally {
    ghost use Rattle.q_tallies.specs.Tallied.{Tallied};

    ghost Value = { Tallied };

    ghost view = { λ t. record {
      id = t.id;
      transport = t.transport;
      counted = record { count = t.count; over = t.over; ways = t.ways.items };
    } };
}

impl Tally {
    /// Before anything was counted.
    pub fn new(alloc: Global, id: Id, transport: u8) -> Tally
        ensures { result ≡ record {
          id = id;
          transport = transport;
          counted = record { count = 0; over = false; ways = [] };
        } }
    {
        Tally {
            id,
            transport,
            count: 0,
            over: false,
            ways: Vec::new(alloc),
        }
    }

    /// The message of the job.
    pub fn id(&self) -> Id
        ensures { result ≡ self.now.id }
    {
        self.id
    }

    /// The transport of the job.
    pub fn transport(&self) -> u8
        ensures { result ≡ self.now.transport }
    {
        self.transport
    }

    /// What was counted; it stays at the greatest number of 64 bits.
    pub fn count(&self) -> u64
        ensures { result ≡ self.now.counted.count }
    {
        self.count
    }

    /// Whether its message has come into memory anew, or another life has begun.
    pub fn is_over(&self) -> bool
        ensures { result ≡ self.now.counted.over }
    {
        self.over
    }

    fn end(&mut self)
        ensures { self.new ≡ record self.old { counted = ended self.old.counted } }
    {
        self.over = true;
        self.ways.clear();
    }

    fn admit(&mut self, id: Id)
        ensures { self.new ≡ record self.old {
          counted = with_admission self.old.id id self.old.counted;
        } }
    {
        self.over = self.over || same_id(id, self.id);
        forget(&mut self.ways, id);
    }

    fn start(&mut self, id: Id)
        ensures { self.new ≡ record self.old {
          counted = with_start capped_sum id self.old.counted;
        } }
    {
        self.count = self.count.saturating_add(times_of(&self.ways, id));
    }

    fn is_own(&self, parent: Id) -> bool
        ensures { result ≡ is_own self.now.id parent self.now.counted }
    {
        !self.over && same_id(parent, self.id)
    }

    /// How often a preemption of the parent counts for the job.
    fn times_of_parent(&self, parent: Id) -> u64
        ensures { result ≡ times_of_parent capped_sum self.now.id parent self.now.counted }
    {
        let once = if self.is_own(parent) { 1 } else { 0 };
        times_of(&self.ways, parent).saturating_add(once)
    }

    fn preempt(&mut self, child: Id, parent: Id) -> Result<(), NoMemory>
        ensures ok { OnOk result (self.new ≡ record self.old {
          counted = with_preemption capped_sum self.old.id child parent self.old.counted;
        }) }
        ensures err { OnErr result (self.new ≡ self.old) }
    {
        let times = self.times_of_parent(parent);
        if times == 0 {
            return Ok(());
        }
        self.ways.push(Way { id: child, times })?;
        Ok(())
    }

    /// Counts the next entry of a trace.
    pub fn take(&mut self, entry: &Entry) -> Result<(), NoMemory>
        ensures ok { OnOk result (self.new ≡ record self.old {
          counted = counted capped_sum self.old.id self.old.transport entry.now self.old.counted;
        }) }
        ensures err { OnErr result (self.new ≡ self.old) }
    {
        match entry {
            Entry::Life { .. } => {
                self.end();
                Ok(())
            }
            Entry::Admit { id } => {
                self.admit(*id);
                Ok(())
            }
            Entry::Start { id, site, .. } => {
                if site.transport == self.transport {
                    self.start(*id);
                }
                Ok(())
            }
            Entry::Preempt {
                child,
                parent,
                transport,
                ..
            } => {
                if *transport == self.transport {
                    self.preempt(*child, *parent)
                } else {
                    Ok(())
                }
            }
            _ => Ok(()),
        }
    }
}
