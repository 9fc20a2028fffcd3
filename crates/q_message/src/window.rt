//! A window on a file that is read once, from its front to its end.
ghost use Rattle.std.specs.Prelude.{◌≡◌, ◌+◌, ◌<◌, ◌^◌, [], false, drop, IsTrue, OnOk};
ghost use Rattle.q_host.specs.Calls.{Stays};
ghost use Rattle.q_message.specs.Causes.{ReadCause};
ghost use Rattle.q_message.specs.Fronts.{StartsAt};
ghost use Rattle.q_message.specs.Told.{IsThere, OnNoMessage, TellsShown, StaysShown};
ghost use Rattle.q_message.specs.Windows.{moved_on};

use crate::error::MessageError;
use q_host::Host;
use q_model::Spot;
use std::marker::Model;

/// How many bytes are read at once.
const PIECE: usize = 16_384;

/// No record but the content's has more bytes, nor have those before the recipients' together, nor
/// those of one recipient.
const AHEAD: usize = 1_024;

/// The bytes of a file from an offset on that were read, and whether the file ends with them.
#[derive(Drop)]
pub(crate) struct Window {
    buffer: [u8; PIECE],
    from: usize,
    to: usize,
    at: u64,
    ended: bool,
}

impl Model for Window {
    ghost use Rattle.std.specs.Prelude.{take, drop, ◌≤◌};
    ghost use Rattle.q_message.specs.Windows.{Seen};

    ghost Value = { Seen };

    ghost view = { λ w. record { at = w.at; bytes = drop w.from (take w.to w.buffer); ended = w.ended } };

    ghost invariant = { λ w. (w.from ≤ w.to) × (w.to ≤ 16384) };
}

impl Window {
    pub(crate) fn new(at: u64) -> Window
        ensures { result ≡ record { at = at; bytes = []; ended = false } }
    {
        Window {
            buffer: [0; PIECE],
            from: 0,
            to: 0,
            at,
            ended: false,
        }
    }

    /// Forgets what was read, and goes to an offset.
    pub(crate) fn restart(&mut self, at: u64)
        ensures { self.new ≡ record { at = at; bytes = []; ended = false } }
    {
        self.from = 0;
        self.to = 0;
        self.at = at;
        self.ended = false;
    }

    /// The offset of the window's front.
    pub(crate) fn at(&self) -> u64
        ensures { result ≡ self.now.at }
    {
        self.at
    }

    pub(crate) fn bytes(&self) -> &[u8]
        ensures { result.now ≡ self.now.bytes }
    {
        &self.buffer[self.from..self.to]
    }

    /// Passes over so many bytes, also over those that aren't read yet.
    pub(crate) fn skip(&mut self, count: u32)
        ensures moved { self.old.at + count < 2 ^ 64 → self.new ≡ moved_on count self.old }
        ensures at { self.old.at + count < 2 ^ 64 → self.new.at ≡ self.old.at + count }
    {
        let left = self.to - self.from;
        let count = count as usize;
        self.from += if count < left { count } else { left };
        self.at = self.at.saturating_add(count as u64);
    }

    /// Reads on where less than a record may be seen.
    pub(crate) fn fill<H: Host>(&mut self, host: &mut H, spot: Spot) -> Result<(), MessageError>
        requires { IsThere H.tells (H.view host.old) spot }
        ensures at { self.new.at ≡ self.old.at }
        ensures shows { OnOk result (StaysShown H.tells (H.view host.old) spot self.old self.new) }
        ensures front { OnOk result (TellsShown H.tells (H.view host.old) spot self.old
            (StartsAt self.old.at self.new.bytes)) }
        ensures only { OnNoMessage result (λ _. ⊥) }
        ensures stays { IsTrue H.tells → Stays (H.view host.old) (H.view host.new) }
        ensures cause { ReadCause (H.faults host.old) (H.faults host.new) result }
    {
        if self.ended || self.to - self.from >= AHEAD {
            return Ok(());
        }
        let count = host.read(spot.area, spot.name, self.at, &mut self.buffer)?;
        self.from = 0;
        self.to = count;
        self.ended = count < PIECE;
        Ok(())
    }
}
