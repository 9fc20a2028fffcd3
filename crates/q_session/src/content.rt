//! The content, read from the queue file in pieces and sent line by line.
ghost use Rattle.std.specs.Prelude.{◌≡◌, ◌<◌, ◌≤◌, ◌+◌, ◌++◌, ℕ, true, false, length, Ok, IfOk, IfSome, IsSome, IsTrue};
ghost use Rattle.q_content.specs.Encoding.{line_start, sent_end};
ghost use Rattle.q_host.specs.Calls.{Stays};
ghost use Rattle.q_host.specs.Faults.{DiskCause};
ghost use Rattle.q_session.specs.Mails.{Mail, StandsAt};
ghost use Rattle.q_session.specs.Sending.{Fills, IsPieceAt, IsPlaced, pieces_left};

use crate::outbox::Outbox;
use q_content::ContentLine;
use q_host::{Host, HostError};
use q_model::{FileHead, Spot};

/// How many bytes of the file are read at once.
const PIECE: usize = 65_536;

/// The part of the content that isn't sent yet.
#[derive(Debug, Drop)]
pub(crate) struct Content {
    pub(crate) spot: Spot,
    // the offset of the next byte, and how many there are from it on
    pub(crate) at: u64,
    pub(crate) left: u32,
    pub(crate) line: ContentLine,
    // nothing is to be sent, since it isn't asked for yet or is sent
    pub(crate) idle: bool,
}

impl Content {
    pub(crate) fn new(spot: Spot, file: &FileHead) -> Content
        ensures { result ≡ record {
          spot = spot;
          at = file.now.content_at;
          left = file.now.content_len;
          line = line_start;
          idle = true;
        } }
    {
        Content {
            spot,
            at: file.content_at,
            left: file.content_len,
            line: ContentLine::start(),
            idle: true,
        }
    }

    pub(crate) fn begin(&mut self)
        ensures { self.new ≡ record self.old { idle = false } }
    {
        self.idle = false;
    }

    pub(crate) fn is_idle(&self) -> bool
        ensures { result ≡ self.now.idle }
    {
        self.idle
    }

    /// Puts the next piece into the outbox, in place of what was sent, and with the last one the
    /// end. The answer is false where the file has fewer bytes than its head says.
    pub(crate) fn fill<H: Host>(
        &mut self,
        host: &mut H,
        outbox: &mut Outbox,
    ) -> Result<bool, HostError>
        requires busy { self.old.idle ≡ false }
        requires there { IsTrue H.tells
            → (mail : Mail) × StandsAt H.tells (H.view host.old) self.old.spot mail }
        ensures spot { self.new.spot ≡ self.old.spot }
        ensures filled { result ≡ Ok true → IsTrue H.tells → (mail : Mail)
            → StandsAt H.tells (H.view host.old) self.old.spot mail → IsPlaced mail self.old
            → Fills mail self.old self.new outbox.new }
        ensures ended { result ≡ Ok true → self.new.left ≡ 0 → self.new.idle ≡ true }
        ensures fewer { result ≡ Ok true → pieces_left self.new < pieces_left self.old }
        ensures short { result ≡ Ok false → IsTrue H.tells → (mail : Mail)
            → StandsAt H.tells (H.view host.old) self.old.spot mail → IsPlaced mail self.old → ⊥ }
        ensures kept { (result ≡ Ok true → ⊥) → self.new ≡ self.old }
        ensures outbox_kept { (result ≡ Ok true → ⊥) → outbox.new ≡ outbox.old }
        ensures stays { IsTrue H.tells → Stays (H.view host.old) (H.view host.new) }
        ensures cause { DiskCause (H.faults host.old) (H.faults host.new) result }
    {
        if self.left == 0 {
            outbox.clear();
            self.end(outbox);
            return Ok(true);
        }
        if !self.put_piece(host, outbox)? {
            return Ok(false);
        }
        if self.left > 0 {
            return Ok(true);
        }
        self.end(outbox);
        Ok(true)
    }

    // Puts the next piece into the outbox, in place of what was sent.
    fn put_piece<H: Host>(&mut self, host: &mut H, outbox: &mut Outbox) -> Result<bool, HostError>
        requires busy { self.old.idle ≡ false }
        requires some { 0 < self.old.left }
        requires there { IsTrue H.tells
            → (mail : Mail) × StandsAt H.tells (H.view host.old) self.old.spot mail }
        ensures spot { self.new.spot ≡ self.old.spot }
        ensures busy { self.new.idle ≡ false }
        ensures filled { result ≡ Ok true → IsTrue H.tells → (mail : Mail)
            → StandsAt H.tells (H.view host.old) self.old.spot mail → IsPlaced mail self.old
            → Fills mail self.old self.new outbox.new }
        ensures fewer { result ≡ Ok true → self.new.left < self.old.left }
        ensures few { result ≡ Ok true → length outbox.new.bytes + 6 ≤ 131088 }
        ensures short { result ≡ Ok false → IsTrue H.tells → (mail : Mail)
            → StandsAt H.tells (H.view host.old) self.old.spot mail → IsPlaced mail self.old → ⊥ }
        ensures kept { (result ≡ Ok true → ⊥) → self.new ≡ self.old }
        ensures outbox_kept { (result ≡ Ok true → ⊥) → outbox.new ≡ outbox.old }
        ensures stays { IsTrue H.tells → Stays (H.view host.old) (H.view host.new) }
        ensures cause { DiskCause (H.faults host.old) (H.faults host.new) result }
    {
        let mut buffer = [0; PIECE];
        let count = PIECE.min(self.left as usize);
        let piece = &mut buffer[..count];
        if !read_whole(host, self.spot, self.at, piece)? {
            return Ok(false);
        }
        self.line = outbox.encode(self.line, piece);
        self.at = self.at.saturating_add(count as u64);
        self.left -= count as u32;
        Ok(true)
    }

    // The end leaves by the same write as what is in the outbox, where the link takes all.
    fn end(&mut self, outbox: &mut Outbox)
        requires room { length outbox.old.bytes + 6 ≤ 131088 }
        ensures content { self.new ≡ record self.old { idle = true } }
        ensures bytes { outbox.new ≡ record {
          bytes = outbox.old.bytes ++ sent_end self.old.line;
          gone = outbox.old.gone;
        } }
    {
        outbox.add_end(self.line);
        self.idle = true;
    }
}

// Reads a piece of a file. The answer is false where the file ends within it.
fn read_whole<H: Host>(
    host: &mut H,
    spot: Spot,
    at: u64,
    piece: &mut [u8],
) -> Result<bool, HostError>
    requires { IsTrue H.tells → IsSome ((H.view host.old).files spot.area spot.name) }
    ensures read { IfOk result (λ whole. IsTrue H.tells
        → IfSome ((H.view host.old).files spot.area spot.name) (IsPieceAt at piece.new whole)) }
    ensures length { length piece.new ≡ length piece.old }
    ensures stays { IsTrue H.tells → Stays (H.view host.old) (H.view host.new) }
    ensures cause { DiskCause (H.faults host.old) (H.faults host.new) result }
{
    let count = host.read(spot.area, spot.name, at, piece)?;
    Ok(count == piece.len())
}
