//! Bytes that are to be sent.
ghost use Rattle.std.specs.Prelude.{◌≡◌, ◌≢◌, ◌≤◌, ◌+◌, ◌*◌, ◌++◌, [], length, take, drop, IfOk};
ghost use Rattle.q_content.specs.Encoding.{behind_bytes, sent_bytes, sent_end};
ghost use Rattle.q_link.specs.declared.usage.Usage.TheVariants.{Misused, Open};
ghost use Rattle.q_session.specs.Outgoing.{pending};
ghost use Rattle.q_session.specs.Polls.{SendsOnce};
ghost use Rattle.q_session.specs.Traffic.{Gave, GoesOn, Sends, Tells, waits_of_sent};
ghost use Rattle.q_session.specs.Uses.{SparesSent, UsesSent};

use q_content::{ContentLine, encode, encode_end};
use q_link::{Link, Put};
use q_model::NoMemory;
use std::alloc::Global;
use std::marker::Model;

/// How many bytes it holds: a piece of the content as it is sent and the end, or a command.
const ROOM: usize = 131_088;

/// What came of sending.
#[derive(Clone, Copy, Debug, PartialEq, Eq)]
pub(crate) enum Sent {
    /// Nothing is left to send.
    All,
    /// The link isn't ready to send more.
    NotYet,
    /// The link failed.
    Lost,
}

/// Bytes that are to be sent. A contract sees it as the bytes and how many of them were sent.
#[derive(Debug, Drop)]
pub(crate) struct Outbox {
    // in a box, so that who holds a session doesn't move them
    bytes: Box<[u8; ROOM]>,
    from: usize,
    to: usize,
}

impl Model for Outbox {
    ghost use Rattle.std.specs.Prelude.{take, ◌≤◌};
    ghost use Rattle.q_session.specs.Outgoing.{Outgoing};

    ghost Value = { Outgoing };

    ghost view = { λ o. record { bytes = take o.to o.bytes.value; gone = o.from } };

    ghost invariant = { λ o. (o.from ≤ o.to) × (o.to ≤ 131088) };
}

impl Outbox {
    pub(crate) fn new(alloc: Global) -> Result<Outbox, NoMemory>
        ensures { IfOk result (λ outbox. outbox ≡ record { bytes = []; gone = 0 }) }
    {
        let Ok(bytes) = Box::new(alloc, [0; ROOM]) else {
            return Err(NoMemory);
        };
        Ok(Outbox {
            bytes,
            from: 0,
            to: 0,
        })
    }

    /// Forgets what was sent.
    pub(crate) fn clear(&mut self)
        ensures { self.new ≡ record { bytes = []; gone = 0 } }
    {
        self.from = 0;
        self.to = 0;
    }

    /// Adds bytes at the end.
    pub(crate) fn add(&mut self, bytes: &[u8])
        requires { length self.old.bytes + length bytes.now ≤ 131088 }
        ensures { self.new ≡ record { bytes = self.old.bytes ++ bytes.now; gone = self.old.gone } }
    {
        write_at(&mut self.bytes[..], self.to, bytes);
        self.to += bytes.len();
    }

    /// Holds a piece of the content as it is sent, in place of what it held, and answers the line
    /// behind it.
    pub(crate) fn encode(&mut self, line: ContentLine, piece: &[u8]) -> ContentLine
        requires few { 2 * length piece.now + 2 ≤ 131088 }
        ensures few { length self.new.bytes ≤ 2 * length piece.now + 1 }
        ensures line { result ≡ behind_bytes line piece.now }
        ensures bytes { self.new ≡ record { bytes = sent_bytes line piece.now; gone = 0 } }
    {
        let encoded = encode(line, piece, &mut self.bytes[..]);
        self.from = 0;
        self.to = encoded.count;
        encoded.line
    }

    /// Adds the end of the content as it is sent.
    pub(crate) fn add_end(&mut self, line: ContentLine)
        requires { length self.old.bytes + 6 ≤ 131088 }
        ensures { self.new ≡ record {
          bytes = self.old.bytes ++ sent_end line;
          gone = self.old.gone;
        } }
    {
        let mut end = [0; 6];
        let count = encode_end(line, &mut end);
        self.add(&end[..count]);
    }

    /// Sends until nothing is left or the link isn't ready.
    pub(crate) fn flush<L: Link>(&mut self, link: &mut L) -> Sent
        requires usable { (L.view link.old).usage ≡ Open }
        ensures link { Sends result (pending self.new) (L.view link.old) (L.view link.new) }
        ensures gave { Tells (Gave (pending self.old) (pending self.new) (waits_of_sent result))
            (L.view link.old) (L.view link.new) }
        ensures uses { UsesSent result (L.view link.new).usage }
        ensures spares { SparesSent result
            (L.view link.old).waits_left (L.view link.new).waits_left }
    {
        while self.from < self.to {
            match link.write(&self.bytes[self.from..self.to]) {
                Put::Gave(count) => self.from += count,
                Put::NotYet => return Sent::NotYet,
                Put::Failed => return Sent::Lost,
            }
        }
        Sent::All
    }

    /// Sends what it can by one write, whatever comes of it.
    pub(crate) fn send_once<L: Link>(&mut self, link: &mut L)
        requires usable { (L.view link.old).usage ≡ Open }
        ensures link { GoesOn (L.view link.old) (L.view link.new) }
        ensures sends { Tells (SendsOnce (pending self.old)) (L.view link.old) (L.view link.new) }
        ensures same { self.new ≡ self.old }
        ensures uses { (L.view link.new).usage ≢ Misused }
    {
        if self.from < self.to {
            let _ = link.write(&self.bytes[self.from..self.to]);
        }
    }
}

fn write_at(bytes: &mut [u8], at: usize, text: &[u8])
    requires { at + length text.now ≤ length bytes.old }
    ensures { bytes.new ≡ take at bytes.old ++ text.now ++ drop (at + length text.now) bytes.old }
{
    bytes[at..at + text.len()].copy_from_slice(text);
}
