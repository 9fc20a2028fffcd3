//! A command of a case, as the program runs it.
use crate::client::door_for;
use crate::fault::Given;
use crate::flaw::Flaw;
use crate::server::hops_to;
use crate::snapshot::Snapshot;
use crate::stage::Stage;
use q_door::ScriptDoor;
use q_link::ScriptHops;
use q_model::Moment;
use q_silent_host::SilentHost;
use q_stream::{MemClock, MemSource};
use q_top::{Status, qmgr};
use std::alloc::{AllocError, Global};
use std::mem;

/// The words between blanks.
fn words_of(alloc: Global, text: &str) -> Result<Vec<String>, AllocError> {
    let mut words = Vec::new(alloc);
    for word in text.split_whitespace() {
        words.push(word.to_string(alloc)?)?;
    }
    Ok(words)
}

/// Runs a command whose input is the source, at these moments, and answers how it ended.
pub(crate) fn run_on(
    alloc: Global,
    host: &mut SilentHost,
    words: &str,
    source: &mut MemSource,
    moments: &[Moment],
    hops: &mut ScriptHops,
    door: &mut ScriptDoor,
) -> Result<Status, Flaw> {
    let words = words_of(alloc, words)?;
    let mut clock = MemClock::new(alloc, moments)?;
    Ok(qmgr(alloc, &words, source, host, &mut clock, hops, door))
}

impl Stage {
    /// Plans the fault of the next command, if there is to be one.
    fn plan_fault(&mut self, words: &str, input: &[u8], moments: &[Moment]) -> Result<(), Flaw> {
        let Some(fault) = self.fault.take() else {
            return Ok(());
        };
        let spool = Snapshot::of(self.alloc, &mut self.host, "")?;
        let given = Given {
            spool: &spool,
            words,
            input,
            moments,
            clients: self.clients.as_slice(),
        };
        fault.plan(self.alloc, given, &mut self.host)
    }

    /// Runs a command with this input. What it was given goes with it.
    pub(crate) fn run(&mut self, words: &str, input: &[u8]) -> Result<(), Flaw> {
        let alloc = self.alloc;
        let moments = mem::replace(&mut self.moments, Vec::new(alloc));
        let rots = match &self.fault {
            Some(fault) => fault.rots(),
            None => false,
        };
        self.plan_fault(words, input, moments.as_slice())?;
        self.told_before = self.host.told().len();
        self.calls_before = self.host.calls();
        self.found = self.told_before;
        self.links_seen = 0;
        self.hops = hops_to(alloc, self.servers.as_slice())?;
        self.servers = Vec::new(alloc);
        let piece = self.piece.max(1);
        self.door = door_for(alloc, self.clients.as_slice(), piece)?;
        self.clients = Vec::new(alloc);
        self.clients_seen = 0;
        let fails = mem::replace(&mut self.fails, Vec::new(alloc));
        let mut source = MemSource::new(alloc, input, piece, fails.as_slice())?;
        let host = &mut self.host;
        let hops = &mut self.hops;
        let door = &mut self.door;
        let moments = moments.as_slice();
        let status = run_on(alloc, host, words, &mut source, moments, hops, door)?;
        self.ended = Some(status);
        self.audit_first(words, rots)
    }
}
