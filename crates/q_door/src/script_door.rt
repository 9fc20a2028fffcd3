//! A door in memory, whose links follow scripts, as those of hops in memory do. It is for tests, and
//! for proofs about a whole program. Its bind answers Ok. Its accepts take the scripts in order, and
//! one beyond the last fails.
//!
//! A script is begun by `link`, and the calls behind it add to it. It is an error to add where no
//! script is left that an accept didn't take, to add a piece of no byte, and to ask what was sent over
//! a link that wasn't closed.
ghost use Rattle.std.specs.Prelude.{◌≡◌, ◌≢◌, ◌<◌, ◌∷◌, [], true, false, IfOk, IsErrOf, length, OnErr, OnOk};
ghost use Rattle.q_link.specs.Records.{IsRested};
ghost use Rattle.q_link.specs.Routes.{has_route};
ghost use Rattle.q_link.specs.Scripts.{empty_script, end, failure, not_yet, piece, with_failing_write, with_not_yet_write, with_step};
ghost use Rattle.q_link.specs.ScriptHops.{HasRecords, IsSentIn, after_close, after_rest, with_last, with_script};
ghost use Rattle.q_link.specs.ScriptLinks.{rested};
ghost use Rattle.q_link.specs.Views.{NoWait};
ghost use Rattle.q_door.specs.Doors.{Accepts, Binds, Closes, CountsFailure, IsFresh, MovesWaits, Rests, StaysOpen};
ghost use Rattle.q_door.specs.ScriptDoors.{unbound, view_of, with_hops};

use crate::{Door, DoorError};
use q_link::{Hops, NoLink, ScriptHops, ScriptLink};
use q_model::{Hop, NoMemory};
use std::alloc::Global;
use std::marker::Model;

/// A door in memory. It is made of hops in memory, of which each accept is a connect to one next
/// hop.
#[derive(Drop)]
pub struct ScriptDoor {
    hops: ScriptHops,
    hop: Hop,
    binds: u64,
    ports: Vec<u16>,
    tells: bool,
    bound: bool,
}

impl Model for ScriptDoor {
    ghost use Rattle.std.specs.Prelude.{◌≡◌, true};
    ghost use Rattle.q_link.specs.Routes.{has_route};
    ghost use Rattle.q_door.specs.ScriptDoors.{ScriptDoor as Scripted};

    ghost Value = { Scripted };

    ghost view = { λ d. record {
      hops = d.hops;
      binds = d.binds;
      ports = d.ports.items;
      tells = d.tells;
      bound = d.bound;
    } };

    ghost invariant = { λ d. has_route d.hop ≡ true };
}

/// A next hop that a connection can be opened to.
fn some_hop() -> Hop
    ensures { has_route result ≡ true }
{
    match Hop::new(b"[127.0.0.1]:25") {
        Some(hop) => hop,
        None => unreachable!(),
    }
}

impl ScriptDoor {
    /// A door without a script.
    pub fn new(alloc: Global) -> ScriptDoor
        ensures { result ≡ unbound }
    {
        ScriptDoor {
            hops: ScriptHops::new(alloc),
            hop: some_hop(),
            binds: 0,
            ports: Vec::new(alloc),
            tells: true,
            bound: false,
        }
    }

    /// Begins the script of the next link. After `NoMemory` nothing has changed, here and at the
    /// calls below.
    pub fn link(&mut self) -> Result<(), NoMemory>
        ensures ok { OnOk result (self.new
            ≡ with_hops (with_script empty_script self.old.hops) self.old) }
        ensures begun { OnOk result (0 < length self.new.hops.scripts) }
        ensures err { OnErr result (self.new ≡ self.old) }
    {
        self.hops.link()
    }

    /// Bytes come, at least one. Of more than fit a read's buffer, the rest is the next step.
    pub fn piece(&mut self, bytes: &[u8]) -> Result<(), NoMemory>
        requires begun { 0 < length self.old.hops.scripts }
        requires some { 0 < length bytes.now }
        ensures ok { OnOk result (self.new
            ≡ with_hops (with_last (with_step (piece bytes.now)) self.old.hops) self.old) }
        ensures begun { 0 < length self.new.hops.scripts }
        ensures err { OnErr result (self.new ≡ self.old) }
    {
        self.hops.piece(bytes)
    }

    /// A read answers `NotYet`.
    pub fn not_yet(&mut self) -> Result<(), NoMemory>
        requires begun { 0 < length self.old.hops.scripts }
        ensures ok { OnOk result (self.new
            ≡ with_hops (with_last (with_step not_yet) self.old.hops) self.old) }
        ensures begun { 0 < length self.new.hops.scripts }
        ensures err { OnErr result (self.new ≡ self.old) }
    {
        self.hops.not_yet()
    }

    /// A read answers `End`.
    pub fn end(&mut self) -> Result<(), NoMemory>
        requires begun { 0 < length self.old.hops.scripts }
        ensures ok { OnOk result (self.new
            ≡ with_hops (with_last (with_step end) self.old.hops) self.old) }
        ensures begun { 0 < length self.new.hops.scripts }
        ensures err { OnErr result (self.new ≡ self.old) }
    {
        self.hops.end()
    }

    /// A read fails.
    pub fn fail(&mut self) -> Result<(), NoMemory>
        requires begun { 0 < length self.old.hops.scripts }
        ensures ok { OnOk result (self.new
            ≡ with_hops (with_last (with_step failure) self.old.hops) self.old) }
        ensures begun { 0 < length self.new.hops.scripts }
        ensures err { OnErr result (self.new ≡ self.old) }
    {
        self.hops.fail()
    }

    /// The write with this number, counted from 1, answers `NotYet`.
    pub fn write_not_yet(&mut self, call: u64) -> Result<(), NoMemory>
        requires begun { 0 < length self.old.hops.scripts }
        ensures ok { OnOk result (self.new
            ≡ with_hops (with_last (with_not_yet_write call) self.old.hops) self.old) }
        ensures begun { 0 < length self.new.hops.scripts }
        ensures err { OnErr result (self.new ≡ self.old) }
    {
        self.hops.write_not_yet(call)
    }

    /// The write with this number, counted from 1, fails, also where it is to answer `NotYet`.
    pub fn write_fails(&mut self, call: u64) -> Result<(), NoMemory>
        requires begun { 0 < length self.old.hops.scripts }
        ensures ok { OnOk result (self.new
            ≡ with_hops (with_last (with_failing_write call) self.old.hops) self.old) }
        ensures begun { 0 < length self.new.hops.scripts }
        ensures err { OnErr result (self.new ≡ self.old) }
    {
        self.hops.write_fails(call)
    }

    /// How many links were closed, each of which has a record.
    pub fn closed(&self) -> usize
        ensures count { result ≡ self.now.hops.closed_links }
        ensures records { HasRecords self.now.hops result }
    {
        self.hops.closed()
    }

    /// The bytes that were sent over the link with this index among those that were closed. Where
    /// that link tells no more, there are none.
    pub fn sent(&self, i: usize) -> &[u8]
        requires { i < self.now.hops.closed_links }
        ensures { IsSentIn self.now.hops i result.now }
    {
        self.hops.sent(i)
    }
}

impl Door for ScriptDoor {
    type Link = ScriptLink;

    ghost use Rattle.q_door.specs.ScriptDoors.{view_of};

    ghost view = { λ door. view_of door };

    fn bind(&mut self, port: u16) -> Result<(), DoorError>
        ensures binds { Binds port result (view_of self.old) (view_of self.new) }
        ensures bound { OnOk result ((view_of self.new).bound ≡ true) }
        ensures failed { CountsFailure result (view_of self.old) (view_of self.new) }
        ensures ok { OnErr result (true ≡ false) }
        ensures hops { self.new.hops ≡ self.old.hops }
    {
        self.bound = true;
        let Some(count) = self.binds.checked_add(1) else {
            self.tells = false;
            return Ok(());
        };
        if self.ports.push(port).is_err() {
            self.tells = false;
            return Ok(());
        }
        self.binds = count;
        Ok(())
    }

    fn accept(&mut self, alloc: Global) -> Result<ScriptLink, DoorError>
        requires bound { (view_of self.old).bound ≡ true }
        ensures accepts { Accepts (view_of self.old) (view_of self.new) }
        ensures fresh { IfOk result (λ link. IsFresh (view_of self.new) link.view) }
        ensures failed { CountsFailure result (view_of self.old) (view_of self.new) }
        ensures waits { MovesWaits (λ link. link.view) result
            (view_of self.old) (view_of self.new) }
        // The link follows the next script; where none is left, the accept fails.
        ensures script { IfOk result (λ link.
            self.old.hops.scripts ≡ link.script ∷ self.new.hops.scripts) }
        ensures none_left { IsErrOf result DoorError.Failed → self.old.hops.scripts ≡ [] }
        ensures kept { OnErr result (self.new.hops.scripts ≡ self.old.hops.scripts) }
    {
        let link = match self.hops.connect(alloc, &self.hop) {
            Ok(link) => link,
            Err(NoLink::NoMemory) => return Err(DoorError::NoMemory),
            Err(NoLink::NoRoute) => return Err(DoorError::Failed),
            Err(NoLink::Failed) => return Err(DoorError::Failed),
        };
        Ok(link)
    }

    fn rest(&mut self, link: &mut ScriptLink)
        requires waits { link.old.view.wait ≢ NoWait }
        ensures rests { Rests (view_of self.old) (view_of self.new) }
        ensures link { IsRested link.old.view link.new.view }
        // The link follows the rest of its script.
        ensures after { self.new ≡ with_hops (after_rest self.old.hops) self.old }
        ensures rested { link.new ≡ rested link.old }
    {
        self.hops.rest(link);
    }

    fn close(&mut self, alloc: Global, link: ScriptLink) -> Result<(), NoMemory>
        ensures ok { OnOk result (Closes link.view (view_of self.old) (view_of self.new)) }
        ensures err { OnErr result (StaysOpen (view_of self.old) (view_of self.new)) }
        // After `NoMemory` nothing has changed.
        ensures after { OnOk result (self.new
            ≡ with_hops (after_close link self.old.hops) self.old) }
        ensures same { OnErr result (self.new ≡ self.old) }
    {
        self.hops.close(alloc, link)
    }
}
