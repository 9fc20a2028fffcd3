//! Two links in memory whose servers wait for each other. They tell nothing of what came and went.
ghost use Rattle.std.specs.Prelude.{◌≡◌, false, IfOk};

use q_link::{Got, Hops, Link, NoLink, Put, address_of};
use q_model::{Hop, NoMemory};
use std::alloc::{AllocError, Global};
use std::cell::Cell;
use std::marker::Model;
use std::mem;
use std::rc::Rc;

/// What each server says: it accepts all.
const LINES: &[u8] = b"220 hi\r\n250 ok\r\n250 ok\r\n250 ok\r\n354 go\r\n250 done\r\n";

/// A link of the two. Its server says a line only when the other one was written to so often.
#[derive(Drop)]
pub(crate) struct PairedLink {
    // how many writes went over this link, and over the other one
    own: Rc<Cell<u64>>,
    other: Rc<Cell<u64>>,
    // how many it awaits, one more behind each line
    awaits: u64,
    // how many bytes were said
    said: usize,
    waits: bool,
}

impl Model for PairedLink {
    ghost use Rattle.std.specs.Prelude.{Bool};

    ghost Value = { Bool };

    ghost view = { λ l. l.waits };
}

impl PairedLink {
    /// The next byte of the server, unless the other one wasn't written to enough.
    fn next(&self) -> Option<u8> {
        if self.other.get() < self.awaits {
            return None;
        }
        LINES.get(self.said).copied()
    }
}

impl Link for PairedLink {
    ghost use Rattle.std.specs.Prelude.{false, if◌then◌else◌, None};
    ghost use Rattle.q_link.specs.Views.{ForRead, NoWait};
    ghost use Rattle.q_link.specs.declared.usage.Usage.TheVariants.{Open};

    ghost view = { λ waits. record {
      faults = 0;
      wait = if waits then ForRead else NoWait;
      ended = false;
      usage = Open;
      waits_left = None;
      told = None;
    } };

    fn read(&mut self, buf: &mut [u8]) -> Got {
        let Some(byte) = self.next() else {
            self.waits = true;
            return Got::NotYet;
        };
        self.waits = false;
        self.said = self.said.saturating_add(1);
        self.awaits = self.awaits.saturating_add(u64::from(byte == b'\n'));
        buf[0] = byte;
        Got::Took(1)
    }

    fn write(&mut self, bytes: &[u8]) -> Put {
        self.waits = false;
        self.own.set(self.own.get().saturating_add(1));
        Put::Gave(bytes.len())
    }
}

/// The hops of the two links. The first one that is opened awaits a write over the second before it
/// greets, and the second one awaits none.
#[derive(Drop)]
pub(crate) struct PairedHops {
    // how many writes went over the link that is opened next, and over the other one
    next: Rc<Cell<u64>>,
    other: Rc<Cell<u64>>,
    awaits: u64,
    rests: u64,
}

impl Model for PairedHops {
    ghost use Rattle.std.specs.Prelude.{ℕ};

    ghost Value = { ℕ };

    ghost view = { λ h. h.rests };
}

impl PairedHops {
    pub(crate) fn new(alloc: Global) -> Result<PairedHops, AllocError> {
        Ok(PairedHops {
            next: Rc::new(alloc, Cell::new(0))?,
            other: Rc::new(alloc, Cell::new(0))?,
            awaits: 1,
            rests: 0,
        })
    }

    // The next link, over which nothing came or went.
    fn open(&mut self) -> Result<PairedLink, AllocError>
        ensures counts { self.new ≡ self.old }
        ensures fresh { IfOk result (λ link. link ≡ false) }
    {
        let own = self.next.clone()?;
        let other = self.other.clone()?;
        mem::swap(&mut self.next, &mut self.other);
        Ok(PairedLink {
            own,
            other,
            awaits: mem::replace(&mut self.awaits, 0),
            said: 0,
            waits: false,
        })
    }
}

impl Hops for PairedHops {
    type Link = PairedLink;

    ghost use Rattle.std.specs.Prelude.{None};

    ghost view = { λ rests. record {
      connect_faults = 0;
      rests = rests;
      link_faults = 0;
      link_ends = 0;
      waits_left = None;
      told = None;
    } };

    fn connect(&mut self, _alloc: Global, hop: &Hop) -> Result<PairedLink, NoLink> {
        if address_of(hop).is_none() {
            return Err(NoLink::NoRoute);
        }
        match self.open() {
            Ok(link) => Ok(link),
            Err(_) => Err(NoLink::NoMemory),
        }
    }

    fn rest(&mut self, link: &mut PairedLink) {
        link.waits = false;
        self.rests = self.rests.saturating_add(1);
    }

    fn close(&mut self, _alloc: Global, _link: PairedLink) -> Result<(), NoMemory> {
        Ok(())
    }
}
