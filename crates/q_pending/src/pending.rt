//! A reader of the pending recipients of a message.
ghost use Rattle.std.specs.Prelude.{◌<◌, ◌^◌, ◌≡◌, ◌≤◌, false, IfOk, IfSome, IsTrue, length, List, OnOk, true, ℕ};
ghost use Rattle.q_host.specs.Calls.{Stays};
ghost use Rattle.q_host.specs.Faults.{DiskCause};
ghost use Rattle.q_message.specs.FileHeads.{IsHead};
ghost use Rattle.q_message.specs.Told.{IsThere, TellsOf};
ghost use Rattle.q_model.specs.Message.{Message, pending};
ghost use Rattle.q_pending.specs.Readings.{GivesPending, GivesUnmarked, HasNoneAhead, IsFileOfMessage, IsPendingAhead, IsReading, IsUnmarkedAhead, KeepsAhead, pending_left};

use q_host::{Host, HostError};
use q_logfile::{flags_of, is_set, log_of};
use q_message::{MessageError, read_recipients};
use q_model::{Batch, Cursor, FileHead, Id, Spot, Taken};
use std::alloc::Global;

/// How many recipients are read at once.
const ROOM: u32 = 256;

/// A reader of the pending recipients of a message.
#[derive(Drop)]
pub struct Pending {
    spot: Spot,
    /// How many recipients the queue file has.
    recipients: u32,
    /// The place behind the recipients that were read.
    next: Cursor,
    /// Recipients that were read and aren't marked, and how many of them were given or passed over.
    batch: Batch,
    index: usize,
    /// A flag for each position, set where it has a record in the log.
    logged: Vec<bool>,
}

impl Pending {
    /// A reader of the message of an id, whose queue file, with this head, stands at the spot. It
    /// takes memory for its failure log, for 256 recipients and a byte for each recipient.
    pub fn new<H: Host>(
        alloc: Global,
        host: &mut H,
        spot: Spot,
        id: Id,
        head: &FileHead,
    ) -> Result<Pending, HostError>
        requires there { IsThere H.tells (H.view host.old) spot }
        requires head { TellsOf H.tells (H.view host.old) spot (IsHead head.now) }
        ensures reading { IfOk result (λ p. IsTrue H.tells → IsReading (H.view host.old).files p) }
        ensures ahead { IfOk result (λ p. IsTrue H.tells → (m : Message)
            → IsFileOfMessage (H.view host.old).files m spot → id ≡ m.id
            → IsPendingAhead (H.view host.old).files m p (pending m)) }
        ensures left { IfOk result (λ p. pending_left p ≡ head.now.recipients) }
        ensures stays { IsTrue H.tells → Stays (H.view host.old) (H.view host.new) }
        ensures cause { DiskCause (H.faults host.old) (H.faults host.new) result }
    {
        let records = log_of(alloc, host, id)?;
        let logged = flags_of(alloc, records.as_slice(), head.recipients)?;
        let batch = Batch::new(alloc, ROOM)?;
        let next = Cursor {
            position: 0,
            at: head.first_at,
        };
        Ok(Pending {
            spot,
            recipients: head.recipients,
            next,
            batch,
            index: 0,
            logged,
        })
    }

    /// Reads the next recipients whose mark isn't set into the batch, which was given. There are
    /// none where a record can't be read.
    fn fill<H: Host>(&mut self, host: &mut H) -> Result<(), HostError>
        requires done { length self.old.batch.items ≤ self.old.index }
        requires reading { IsTrue H.tells → IsReading (H.view host.old).files self.old }
        ensures first { OnOk result (self.new.index ≡ 0) }
        ensures reading { OnOk result (IsTrue H.tells
            → IsReading (H.view host.old).files self.new) }
        ensures ahead { OnOk result (IsTrue H.tells
            → KeepsAhead (H.view host.old).files self.old self.new) }
        ensures none { OnOk result (IsTrue H.tells → length self.new.batch.items ≡ 0
            → HasNoneAhead (H.view host.old).files self.new) }
        ensures left { OnOk result (pending_left self.new ≤ pending_left self.old) }
        ensures logged { self.new.logged.items ≡ self.old.logged.items }
        ensures stays { IsTrue H.tells → Stays (H.view host.old) (H.view host.new) }
        ensures cause { DiskCause (H.faults host.old) (H.faults host.new) result }
    {
        self.index = 0;
        self.batch.clear();
        let room = self.batch.room();
        if room == 0 {
            // A reader has room where the host tells its files.
            return Ok(());
        }
        match read_recipients(
            host,
            self.spot,
            self.recipients,
            self.next,
            room,
            &mut self.batch,
        ) {
            Ok(next) => {
                self.next = next;
                Ok(())
            }
            Err(MessageError::Disk) => Err(HostError::Disk),
            Err(MessageError::NoMemory) => Err(HostError::NoMemory),
            Err(MessageError::NotAMessage { .. }) => {
                self.batch.clear();
                Ok(())
            }
        }
    }

    /// Whether there is a recipient in the batch that wasn't given, after more were read if need be.
    fn has_more<H: Host>(&mut self, host: &mut H) -> Result<bool, HostError>
        requires reading { IsTrue H.tells → IsReading (H.view host.old).files self.old }
        ensures reading { OnOk result (IsTrue H.tells
            → IsReading (H.view host.old).files self.new) }
        ensures ahead { OnOk result (IsTrue H.tells
            → KeepsAhead (H.view host.old).files self.old self.new) }
        ensures more { IfOk result (λ more. more ≡ true
            → self.new.index < length self.new.batch.items) }
        ensures none { IfOk result (λ more. more ≡ false → IsTrue H.tells
            → HasNoneAhead (H.view host.old).files self.new) }
        ensures few { IfOk result (λ _. length self.new.batch.items < 2 ^ 64) }
        ensures left { OnOk result (pending_left self.new ≤ pending_left self.old) }
        ensures logged { self.new.logged.items ≡ self.old.logged.items }
        ensures stays { IsTrue H.tells → Stays (H.view host.old) (H.view host.new) }
        ensures cause { DiskCause (H.faults host.old) (H.faults host.new) result }
    {
        if self.index < self.batch.len() {
            return Ok(true);
        }
        self.fill(host)?;
        Ok(self.batch.len() != 0)
    }

    /// The next recipient whose mark isn't set.
    fn next_unmarked<H: Host>(&mut self, host: &mut H) -> Result<Option<Taken>, HostError>
        requires reading { IsTrue H.tells → IsReading (H.view host.old).files self.old }
        ensures reading { OnOk result (IsTrue H.tells
            → IsReading (H.view host.old).files self.new) }
        ensures next { IfOk result (λ o. IsTrue H.tells → (m : Message) → (positions : List ℕ)
            → IsUnmarkedAhead (H.view host.old).files m self.old positions
            → GivesUnmarked (H.view host.old).files m self.new positions o) }
        ensures fewer { IfOk result (λ o. IfSome o (λ _.
            pending_left self.new < pending_left self.old)) }
        ensures logged { self.new.logged.items ≡ self.old.logged.items }
        ensures stays { IsTrue H.tells → Stays (H.view host.old) (H.view host.new) }
        ensures cause { DiskCause (H.faults host.old) (H.faults host.new) result }
    {
        if !self.has_more(host)? {
            return Ok(None);
        }
        let taken = self.batch.get(self.index);
        self.index += 1;
        Ok(Some(taken))
    }

    /// The next pending recipient, by its position. On a host that doesn't tell its files, `None`
    /// comes also where a record can't be read.
    pub fn next<H: Host>(&mut self, host: &mut H) -> Result<Option<Taken>, HostError>
        requires reading { IsTrue H.tells → IsReading (H.view host.old).files self.old }
        ensures reading { OnOk result (IsTrue H.tells
            → IsReading (H.view host.old).files self.new) }
        ensures next { IfOk result (λ o. IsTrue H.tells → (m : Message) → (positions : List ℕ)
            → IsPendingAhead (H.view host.old).files m self.old positions
            → GivesPending (H.view host.old).files m self.new positions o) }
        // Each that is given leaves fewer, on any host.
        ensures fewer { IfOk result (λ o. IfSome o (λ _.
            pending_left self.new < pending_left self.old)) }
        ensures stays { IsTrue H.tells → Stays (H.view host.old) (H.view host.new) }
        ensures cause { DiskCause (H.faults host.old) (H.faults host.new) result }
    {
        loop {
            let Some(taken) = self.next_unmarked(host)? else {
                return Ok(None);
            };
            if !is_set(&self.logged, taken.position) {
                return Ok(Some(taken));
            }
        }
    }
}
