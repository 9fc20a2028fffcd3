//! Bytes that came, cut into replies.
ghost use Rattle.std.specs.Prelude.{◌≡◌, ◌≢◌, ◌≤◌, ◌+◌, [], ◌++◌, ◌∷◌, List, ℕ, length, drop, None, IfOk};
ghost use Rattle.q_smtp.specs.Replies.{Part, codes_from, nothing_yet};
ghost use Rattle.q_reply.specs.Progress.{Holds, room_of};
ghost use Rattle.q_link.specs.declared.usage.Usage.TheVariants.{Open};
ghost use Rattle.q_session.specs.Traffic.{Feeds, Received, Receives, Tells};
ghost use Rattle.q_session.specs.Uses.{SparesHeard, UsesHeard};

use circular_buffer::HeapCircularBuffer;
use q_link::{Got, Link};
use q_model::NoMemory;
use q_reply::{Fed, Replies};
use std::alloc::Global;

/// How many bytes are read at once, and kept at most.
const ROOM: usize = 512;

/// What came of waiting for a reply.
#[derive(Clone, Copy, Debug, PartialEq, Eq)]
pub(crate) enum Heard {
    /// The code of a reply.
    Code(u16),
    /// No whole reply came yet.
    NotYet,
    /// What came is no reply.
    NoReply,
    /// The link ended or failed.
    Lost,
}

/// The bytes that came and aren't used yet, and the reply that has begun.
#[derive(Drop)]
pub(crate) struct Inbox {
    pub(crate) unused: HeapCircularBuffer<u8>,
    pub(crate) replies: Replies,
}

impl Inbox {
    pub(crate) fn new(alloc: Global) -> Result<Inbox, NoMemory>
        ensures { IfOk result (λ i. (i.unused.items ≡ []) × (i.unused.capacity ≡ 512) × Holds nothing_yet i.replies) }
    {
        let unused = HeapCircularBuffer::with_capacity(alloc, ROOM)?;
        Ok(Inbox {
            unused,
            replies: Replies::new(),
        })
    }

    /// Reads on to the end of the next reply.
    pub(crate) fn receive<L: Link>(&mut self, link: &mut L) -> Heard
        requires capacity { self.old.unused.capacity ≡ 512 }
        requires few { length self.old.unused.items ≤ 512 }
        requires usable { (L.view link.old).usage ≡ Open }
        ensures capacity { self.new.unused.capacity ≡ 512 }
        ensures few { length self.new.unused.items ≤ 512 }
        ensures link { Receives result (L.view link.old) (L.view link.new) }
        ensures got { Tells (Received self.old result self.new) (L.view link.old) (L.view link.new) }
        ensures uses { UsesHeard result (L.view link.new).usage }
        ensures spares { SparesHeard result
            (L.view link.old).waits_left (L.view link.new).waits_left }
    {
        let mut buffer = [0; ROOM];
        let mut count = self.unused.read_into(&mut buffer);
        loop {
            match self.take_in(&buffer[..count]) {
                Fed::Reply { code, .. } => return Heard::Code(code),
                Fed::BadReply { .. } | Fed::TooLong => return Heard::NoReply,
                Fed::More => {}
            }
            match link.read(&mut buffer) {
                Got::Took(more) => count = more,
                Got::NotYet => return Heard::NotYet,
                Got::End | Got::Failed => return Heard::Lost,
            }
        }
    }

    /// Feeds bytes, and keeps those behind the end of a reply.
    fn take_in(&mut self, bytes: &[u8]) -> Fed
        requires few { length bytes.now ≤ 512 }
        requires empty { self.old.unused.items ≡ [] }
        requires capacity { self.old.unused.capacity ≡ 512 }
        ensures capacity { self.new.unused.capacity ≡ 512 }
        ensures few { length self.new.unused.items ≤ 512 }
        ensures feeds { (p : Part) → Holds p self.old.replies → Feeds p bytes.now result self.new }
        ensures unused { result ≡ Fed.More → self.new.unused.items ≡ [] }
        ensures room { result ≡ Fed.More → length bytes.now + room_of self.new.replies.progress
            ≤ room_of self.old.replies.progress }
    {
        let answer = self.replies.feed(bytes);
        if let Fed::Reply { used, .. } = answer {
            self.unused.fill_from_slice(&bytes[used..]);
        }
        answer
    }
}
