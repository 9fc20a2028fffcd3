//! Hops in memory, whose links follow scripts: what reads give, and which writes fail or answer
//! `NotYet`. They are for tests, and for proofs about a whole program.
//!
//! A script is begun by `link`, and the calls behind it add to it. It is an error to add where no
//! script is left that a connect didn't take, to add a piece of no byte, and to ask what was sent
//! over a link that wasn't closed. The hops tell all until memory for what a link sends runs out,
//! or a number would pass 2^64 - 1. Then they go on, and tell nothing any more.
ghost use Rattle.std.specs.Prelude.{◌≡◌, ◌≢◌, ◌<◌, ◌⊎◌, ◌∷◌, [], false, IfOk, IsErrOf, length, OnErr, OnOk};
ghost use Rattle.q_link.specs.Views.{NoWait};
ghost use Rattle.q_link.specs.Records.{Closes, Connects, CountsFailure, IsFresh, IsRested, MovesWaits, Rests, StaysOpen, TellsConnect, TellsHop, with_connect, with_hop};
ghost use Rattle.q_link.specs.Routes.{has_route};
ghost use Rattle.q_link.specs.Scripts.{empty_script, end, failure, not_yet, piece, with_failing_write, with_not_yet_write, with_step};
ghost use Rattle.q_link.specs.Playback.{step_of};
ghost use Rattle.q_link.specs.ScriptHops.{HasRecords, IsSentIn, after_close, after_connect, after_rest, connected, no_scripts, opened, with_last, with_script};
ghost use Rattle.q_link.specs.ScriptLinks.{rested};
ghost use Rattle.q_link.specs.declared.hops.NoLink.TheVariants.{NoRoute, NoMemory as OutOfMemory};

use crate::closed_link::ClosedLink;
use crate::link_wait::LinkWait;
use crate::piece::Piece;
use crate::script::{Script, Step};
use crate::{Hops, NoLink, ScriptLink, address_of};
use q_model::{Hop, NoMemory};
use std::alloc::Global;
use std::collections::VecDeque;
use std::marker::Model;

/// Hops in memory. A contract sees them as the scripts that no link follows yet, how many links
/// were closed, and what is known of them. A rest takes no time. A connect answers `NoMemory` where
/// its next hop can't be kept, and takes no script then.
#[derive(Drop)]
pub struct ScriptHops {
    alloc: Global,
    scripts: VecDeque<Script>,
    connects: u64,
    hops: Vec<Hop>,
    rests: u64,
    records: Vec<ClosedLink>,
    connect_faults: u64,
    link_faults: u64,
    link_ends: u64,
    // whether they still tell
    tells: bool,
}

impl Model for ScriptHops {
    ghost use Rattle.std.specs.Prelude.{length};
    ghost use Rattle.q_link.specs.ClosedLinks.{records_of};
    ghost use Rattle.q_link.specs.ScriptHops.{ScriptHops as Scripted};
    ghost use Rattle.q_link.specs.ScriptLinks.{told_while};
    ghost use Rattle.q_link.specs.Scripts.{scripts_waits};

    ghost Value = { Scripted };

    ghost view = { λ h. record {
      scripts = h.scripts.items;
      closed_links = length h.records.items;
      view = record {
        connect_faults = h.connect_faults;
        rests = h.rests;
        link_faults = h.link_faults;
        link_ends = h.link_ends;
        waits_left = scripts_waits h.scripts.items;
        told = told_while h.tells (record {
          connects = h.connects;
          hops = h.hops.items;
          rests = h.rests;
          records = records_of h.records.items;
        });
      };
    } };
}

impl ScriptHops {
    /// Hops without a script.
    pub fn new(alloc: Global) -> ScriptHops
        ensures { result ≡ no_scripts }
    {
        ScriptHops {
            alloc,
            scripts: VecDeque::new(alloc),
            connects: 0,
            hops: Vec::new(alloc),
            rests: 0,
            records: Vec::new(alloc),
            connect_faults: 0,
            link_faults: 0,
            link_ends: 0,
            tells: true,
        }
    }

    /// Begins the script of the next link. After `NoMemory` nothing has changed, here and at the
    /// calls below.
    pub fn link(&mut self) -> Result<(), NoMemory>
        ensures ok { OnOk result (self.new ≡ with_script empty_script self.old) }
        ensures begun { OnOk result (0 < length self.new.scripts) }
        ensures err { OnErr result (self.new ≡ self.old) }
    {
        self.scripts.push_back(Script::new(self.alloc))?;
        Ok(())
    }

    fn add(&mut self, step: Step) -> Result<(), NoMemory>
        requires { 0 < length self.old.scripts }
        ensures ok { OnOk result (self.new ≡ with_last (with_step (step_of step)) self.old) }
        ensures begun { 0 < length self.new.scripts }
        ensures err { OnErr result (self.new ≡ self.old) }
    {
        let last = self.scripts.len() - 1;
        self.scripts[last].add(step)
    }

    /// Bytes come, at least one. Of more than fit a read's buffer, the rest is the next step.
    pub fn piece(&mut self, bytes: &[u8]) -> Result<(), NoMemory>
        requires begun { 0 < length self.old.scripts }
        requires some { 0 < length bytes.now }
        ensures ok { OnOk result (self.new ≡ with_last (with_step (piece bytes.now)) self.old) }
        ensures begun { 0 < length self.new.scripts }
        ensures err { OnErr result (self.new ≡ self.old) }
    {
        let piece = Piece::new(self.alloc, bytes)?;
        self.add(Step::Piece(piece))
    }

    /// A read answers `NotYet`.
    pub fn not_yet(&mut self) -> Result<(), NoMemory>
        requires { 0 < length self.old.scripts }
        ensures ok { OnOk result (self.new ≡ with_last (with_step not_yet) self.old) }
        ensures begun { 0 < length self.new.scripts }
        ensures err { OnErr result (self.new ≡ self.old) }
    {
        self.add(Step::NotYet)
    }

    /// A read answers `End`.
    pub fn end(&mut self) -> Result<(), NoMemory>
        requires { 0 < length self.old.scripts }
        ensures ok { OnOk result (self.new ≡ with_last (with_step end) self.old) }
        ensures begun { 0 < length self.new.scripts }
        ensures err { OnErr result (self.new ≡ self.old) }
    {
        self.add(Step::End)
    }

    /// A read fails.
    pub fn fail(&mut self) -> Result<(), NoMemory>
        requires { 0 < length self.old.scripts }
        ensures ok { OnOk result (self.new ≡ with_last (with_step failure) self.old) }
        ensures begun { 0 < length self.new.scripts }
        ensures err { OnErr result (self.new ≡ self.old) }
    {
        self.add(Step::Fail)
    }

    /// The write with this number, counted from 1, answers `NotYet`.
    pub fn write_not_yet(&mut self, call: u64) -> Result<(), NoMemory>
        requires { 0 < length self.old.scripts }
        ensures ok { OnOk result (self.new ≡ with_last (with_not_yet_write call) self.old) }
        ensures begun { 0 < length self.new.scripts }
        ensures err { OnErr result (self.new ≡ self.old) }
    {
        let last = self.scripts.len() - 1;
        self.scripts[last].write_not_yet(call)
    }

    /// The write with this number, counted from 1, fails, also where it is to answer `NotYet`.
    pub fn write_fails(&mut self, call: u64) -> Result<(), NoMemory>
        requires { 0 < length self.old.scripts }
        ensures ok { OnOk result (self.new ≡ with_last (with_failing_write call) self.old) }
        ensures begun { 0 < length self.new.scripts }
        ensures err { OnErr result (self.new ≡ self.old) }
    {
        let last = self.scripts.len() - 1;
        self.scripts[last].write_fails(call)
    }

    /// How many links were closed, each of which has a record.
    pub fn closed(&self) -> usize
        ensures count { result ≡ self.now.closed_links }
        ensures records { HasRecords self.now result }
    {
        self.records.len()
    }

    /// The bytes that were sent over the link with this index among those that were closed. Where
    /// that link tells no more, there are none.
    pub fn sent(&self, i: usize) -> &[u8]
        requires { i < self.now.closed_links }
        ensures { IsSentIn self.now i result.now }
    {
        self.records[i].link.sent()
    }

    fn count_connect(&mut self)
        ensures { self.new ≡ connected with_connect self.old }
    {
        match self.connects.checked_add(1) {
            Some(count) => self.connects = count,
            None => self.tells = false,
        }
    }

    // Counts a connect, and keeps its next hop.
    fn note_connect(&mut self, hop: &Hop) -> Result<(), NoMemory>
        ensures ok { OnOk result (self.new ≡ connected (with_hop hop.now) self.old) }
        ensures err { OnErr result (self.new ≡ connected with_connect self.old) }
    {
        match self.hops.push(*hop) {
            Ok(()) => {
                self.count_connect();
                Ok(())
            }
            Err(_) => {
                self.count_connect();
                Err(NoMemory)
            }
        }
    }
}

impl Hops for ScriptHops {
    type Link = ScriptLink;

    ghost view = { λ hops. hops.view };

    fn connect(&mut self, _alloc: Global, hop: &Hop) -> Result<ScriptLink, NoLink>
        ensures counts { Connects self.old.view self.new.view }
        ensures fresh { IfOk result (λ link. IsFresh hop.now self.new.view link.view) }
        ensures told { TellsHop hop.now result self.old.view self.new.view }
        ensures told_none { TellsConnect result self.old.view self.new.view }
        ensures no_route { IsErrOf result NoRoute → has_route hop.now ≡ false }
        ensures route { has_route hop.now ≡ false
            → IsErrOf result NoRoute ⊎ IsErrOf result OutOfMemory }
        ensures failed { CountsFailure result self.old.view self.new.view }
        ensures waits { MovesWaits (λ link. link.view) result self.old.view self.new.view }
        // The link follows the next script; where none is left, the connect fails.
        ensures after { self.new ≡ after_connect hop.now result self.old }
        ensures script { IfOk result (λ link. self.old.scripts ≡ link.script ∷ self.new.scripts) }
        ensures link { IfOk result (λ link.
            link.view ≡ opened link.script hop.now self.new.view.told) }
        ensures none_left { IsErrOf result NoLink.Failed → self.old.scripts ≡ [] }
    {
        if self.note_connect(hop).is_err() {
            return Err(NoLink::NoMemory);
        }
        if address_of(hop).is_none() {
            return Err(NoLink::NoRoute);
        }
        match self.scripts.pop_front() {
            Some(script) => {
                let link = ScriptLink::new(self.alloc, hop, script, self.rests, self.tells);
                Ok(link)
            }
            None => {
                self.connect_faults = self.connect_faults.saturating_add(1);
                Err(NoLink::Failed)
            }
        }
    }

    fn rest(&mut self, link: &mut ScriptLink)
        requires waits { link.old.view.wait ≢ NoWait }
        ensures rests { Rests self.old.view self.new.view }
        ensures link { IsRested link.old.view link.new.view }
        // The link follows the rest of its script.
        ensures after { self.new ≡ after_rest self.old }
        ensures rested { link.new ≡ rested link.old }
    {
        link.rest();
        match self.rests.checked_add(1) {
            Some(count) => self.rests = count,
            None => self.tells = false,
        }
    }

    fn close(&mut self, _alloc: Global, link: ScriptLink) -> Result<(), NoMemory>
        ensures ok { OnOk result (Closes link.view self.old.view self.new.view) }
        ensures err { OnErr result (StaysOpen self.old.view self.new.view) }
        // After `NoMemory` nothing has changed.
        ensures after { OnOk result (self.new ≡ after_close link self.old) }
        ensures same { OnErr result (self.new ≡ self.old) }
    {
        self.records.reserve(1)?;
        self.link_faults = self.link_faults.saturating_add(link.faults);
        self.link_ends = self.link_ends.saturating_add(u64::from(link.ended));
        self.tells &= link.tells;
        self.records.push_reserved(ClosedLink {
            link,
            rests: self.rests,
            connects: self.connects,
        });
        Ok(())
    }
}
