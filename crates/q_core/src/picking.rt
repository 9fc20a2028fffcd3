//! The next file is picked from incoming or deferred, which alternate.
ghost use Rattle.std.specs.Prelude.{◌≡◌, ◌<◌, ◌++◌, [], ◌∷◌, IsTrue, false, length, true};
ghost use Rattle.q_core.specs.Agrees.{Follows};
ghost use Rattle.q_core.specs.Changes.{is_known, is_looked_at};
ghost use Rattle.q_core.specs.Held.{is_admitted_in};
ghost use Rattle.q_core.specs.Picking.{IsEntered, found_name, found_slot, from_deferred_in, scan_moved_on, passed_in, picked_in, scanned_in, shown, IsHidden};
ghost use Rattle.q_core.specs.Ties.{admitted_of};

use crate::decision::Found;
use crate::state::{Core, Seen};
use q_model::{DeferredName, Entry, Id, Scan};
use q_pool::Slot;
use q_schedule::Admitted;

/// What the schedule is to know of a message.
fn admitted(slot: &Slot) -> Admitted
    ensures { result ≡ admitted_of slot.now }
{
    Admitted {
        id: slot.id,
        arrival: slot.arrival,
        unread: slot.unread_count(),
    }
}

impl Seen {
    /// What the look has shown.
    fn shown(&self) -> Found
        ensures { result ≡ shown self.now }
    {
        match self {
            Seen::Unknown => Found::Nothing,
            Seen::Known { found } => *found,
        }
    }
}

const NO_ID: Id = Id {
    generation: 0,
    serial: 0,
    bounce: false,
};

impl Found {
    fn name(&self) -> DeferredName
        ensures { result ≡ found_name self.now }
    {
        match self {
            Found::Nothing => DeferredName { due: 0, id: NO_ID },
            Found::Damaged { id, due, .. } => DeferredName { due: *due, id: *id },
            Found::Whole { id, due, .. } => DeferredName { due: *due, id: *id },
        }
    }

    /// What is kept of the message, all of it unread.
    fn slot(&self) -> Slot
        ensures { result ≡ found_slot self.now }
    {
        let mut slot = Slot {
            id: self.name().id,
            arrival: 0,
            null_sender: false,
            recipients: 0,
            unread: 0,
            marks: 0,
            pending: 0,
            logged: false,
            failed: false,
            bounced: false,
            damaged: false,
        };
        if let Found::Whole { file, .. } = self {
            slot.arrival = file.arrival;
            slot.null_sender = file.null_sender;
            slot.recipients = file.recipients;
            slot.pending = file.pending();
            slot.failed = file.failures > 0;
        }
        slot
    }
}

/// The scan goes on behind the name.
fn moved_on(scan: Option<Scan>, name: DeferredName) -> Option<Scan>
    ensures { result ≡ scan_moved_on name scan }
{
    match scan {
        None => None,
        Some(scan) => Some(Scan {
            place: Some(name),
            until: scan.until,
        }),
    }
}

impl Core {
    /// What the scan gives.
    fn scanned(&self) -> Found
        ensures { result ≡ scanned_in self.now.scan self.now.deferred }
    {
        match &self.scan {
            None => Found::Nothing,
            Some(_) => self.deferred.shown(),
        }
    }

    /// The file that is taken next.
    fn picked(&self) -> Found
        ensures { result ≡ picked_in self.now }
    {
        let incoming = self.incoming.shown();
        let deferred = self.scanned();
        if incoming.is_nothing() {
            deferred
        } else if deferred.is_nothing() {
            incoming
        } else if self.deferred_follows {
            deferred
        } else {
            incoming
        }
    }

    /// Whether it is deferred that gives it.
    fn picks_deferred(&self) -> bool
        ensures { result ≡ from_deferred_in self.now }
    {
        self.incoming.shown().is_nothing() || !self.scanned().is_nothing() && self.deferred_follows
    }

    /// The queue that doesn't give follows, and the other is to be looked at anew.
    fn alternate(&mut self, from_deferred: bool, name: DeferredName)
        ensures { self.new ≡ passed_in from_deferred name self.old }
    {
        if from_deferred {
            self.deferred_follows = false;
            self.scan = moved_on(self.scan, name);
            self.deferred = Seen::Unknown;
        } else {
            self.deferred_follows = true;
            self.incoming = Seen::Unknown;
        }
    }

    /// The damaged file that is next goes to corrupt.
    pub(crate) fn corrupt_picked(&mut self)
        requires { IsTrue (is_looked_at self.old) }
        ensures exact { (id : Id) → IsHidden self.old id → Follows self.old self.new (Entry.Corrupt id) }
        ensures timed { self.new.timed ≡ self.old.timed }
    {
        let found = self.picked();
        let from_deferred = self.picks_deferred();
        self.forget_looks();
        self.alternate(from_deferred, found.name());
        self.tidy();
    }

    /// The message comes last of those in memory.
    fn add_message(&mut self, slot: Slot)
        requires absent { is_admitted_in self.old slot.id ≡ false }
        requires room { length self.old.admitted < self.old.params.active_limit }
        ensures { self.new ≡ record self.old { admitted = self.old.admitted ++ slot ∷ [] } }
    {
        self.schedule.admit(admitted(&slot));
        self.admitted.push(slot);
    }

    /// The message comes last of those in memory, if it isn't among them and they have room.
    fn enter(&mut self, found: Found)
        ensures exact { is_admitted_in self.old (found_slot found).id ≡ false
            → length self.old.admitted < self.old.params.active_limit
            → IsEntered self.old self.new found }
        ensures timed { self.new.timed ≡ self.old.timed }
    {
        let slot = found.slot();
        let room = self.params.qmgr_message_active_limit as usize;
        if !self.has_slot(slot.id) && self.admitted.len() < room {
            self.add_message(slot);
        }
    }

    /// The message that is next comes into memory.
    pub(crate) fn admit(&mut self)
        requires { IsTrue (is_looked_at self.old) }
        ensures exact { (id : Id) → is_known self.old.incoming ≡ true
            → Follows self.old self.new (Entry.Admit id) }
        ensures timed { self.new.timed ≡ self.old.timed }
    {
        let found = self.picked();
        let from_deferred = self.picks_deferred();
        self.enter(found);
        self.alternate(from_deferred, found.name());
        self.tidy();
    }
}
