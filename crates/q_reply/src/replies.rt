//! Bytes cut into replies.
ghost use Rattle.std.specs.Prelude.{◌≡◌, ◌≤◌, ◌+◌, ℕ, length, Some};
ghost use Rattle.q_smtp.specs.Replies.{Part, nothing_yet, part_after};
ghost use Rattle.q_reply.specs.Feeds.{Cuts, fed};
ghost use Rattle.q_reply.specs.Progress.{Holds, room_of, Shows};
ghost use Rattle.q_reply.specs.Faults.{answer_of};
ghost use Rattle.q_reply.specs.declared.replies.Fed.{Fed};

use crate::progress::{Progress, Taken};
use std::marker::Model;

/// What came of feeding bytes.
#[derive(Clone, Copy, Debug, PartialEq, Eq)]
pub enum Fed {
    /// A reply is whole: its code, and how many of the bytes belong to it.
    Reply { code: u16, used: usize },
    /// All bytes belong to a reply that isn't whole.
    More,
    /// This byte can't go on with a reply: it isn't where RFC 5321, section 4.2, has it, or the
    /// code of a later line is another one.
    BadReply { byte: u8 },
    /// A 513th byte of a line came, or the first one behind 100 lines that say that more follow.
    TooLong,
}

/// Why bytes are no reply.
#[derive(Clone, Copy, Debug, PartialEq, Eq)]
pub(crate) enum Fault {
    BadReply(u8),
    TooLong,
}

/// A cutter of bytes into replies. Behind `BadReply` or `TooLong` nothing more can be read, since
/// where the next reply begins isn't known: it gives the same answer to all bytes from then on.
#[derive(Debug, Drop)]
pub struct Replies {
    progress: Progress,
    fault: Option<Fault>,
}

impl Model for Replies {
    ghost use Rattle.std.specs.Prelude.{option_map};
    ghost use Rattle.q_reply.specs.Progress.{Kept};
    ghost use Rattle.q_reply.specs.Faults.{answer_of};

    ghost Value = { Kept };

    ghost view = { λ r. record { progress = r.progress; fault = option_map answer_of r.fault } };
}

impl Replies {
    /// A cutter that nothing was fed to yet.
    pub fn new() -> Replies
        ensures { Holds nothing_yet result }
    {
        Replies {
            progress: Progress::new(),
            fault: None,
        }
    }

    /// Takes the next bytes up to the end of a reply; those behind it are the caller's to feed
    /// again. No bytes at all are `More`, but for a fault that came before.
    #[tactic(auto, using(crate::proofs::Cutting::cuts_as))]
    pub fn feed(&mut self, bytes: &[u8]) -> Fed
        // What came so far and these bytes are read as one text, however they were cut.
        ensures fed { (p : Part) → Holds p self.old → result ≡ fed p bytes.now }
        ensures codes { (p : Part) → Holds p self.old → Cuts result p bytes.now }
        ensures more { (p : Part) → Holds p self.old → result ≡ Fed.More
            → Holds (part_after p bytes.now) self.new }
        ensures reply { (p : Part) (code used : ℕ) → Holds p self.old → result ≡ Fed.Reply code used
            → Holds nothing_yet self.new }
        ensures within { (code used : ℕ) → result ≡ Fed.Reply code used
            → (1 ≤ used) × (used ≤ length bytes.now) }
        // A reply has at most 51,200 bytes.
        ensures room { result ≡ Fed.More
            → length bytes.now + room_of self.new.progress ≤ room_of self.old.progress }

        // A fault stays.
        ensures bad { (byte : ℕ) → result ≡ Fed.BadReply byte → self.new.fault ≡ Some result }
        ensures long { result ≡ Fed.TooLong → self.new.fault ≡ Some result }
        ensures again { (fault : Fed) → self.old.fault ≡ Some fault
            → (result ≡ fault) × (self.new ≡ self.old) }
    {
        if let Some(fault) = self.fault {
            return answer_of(fault);
        }
        let answer = advance(&mut self.progress, bytes);
        match answer {
            Fed::BadReply { byte } => self.fault = Some(Fault::BadReply(byte)),
            Fed::TooLong => self.fault = Some(Fault::TooLong),
            Fed::Reply { .. } | Fed::More => {}
        }
        answer
    }
}

fn answer_of(fault: Fault) -> Fed
    ensures { result ≡ answer_of fault }
{
    match fault {
        Fault::BadReply(byte) => Fed::BadReply { byte },
        Fault::TooLong => Fed::TooLong,
    }
}

/// Takes bytes up to the end of a reply.
fn advance(progress: &mut Progress, bytes: &[u8]) -> Fed
    ensures fed { (p : Part) → Shows p progress.old → result ≡ fed p bytes.now }
    ensures more { (p : Part) → Shows p progress.old → result ≡ Fed.More
        → Shows (part_after p bytes.now) progress.new }
    ensures reply { (p : Part) (code used : ℕ) → Shows p progress.old → result ≡ Fed.Reply code used
        → Shows nothing_yet progress.new }
    ensures within { (code used : ℕ) → result ≡ Fed.Reply code used
        → (1 ≤ used) × (used ≤ length bytes.now) }
    ensures room { result ≡ Fed.More
        → length bytes.now + room_of progress.new ≤ room_of progress.old }
{
    for (i, byte) in bytes.iter().enumerate() {
        match progress.take(*byte) {
            Taken::On => {}
            Taken::Whole(code) => return Fed::Reply { code, used: i + 1 },
            Taken::Bad => return Fed::BadReply { byte: *byte },
            Taken::Long => return Fed::TooLong,
        }
    }
    Fed::More
}
