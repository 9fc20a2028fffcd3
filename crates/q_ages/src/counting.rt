//! What a message adds to a table.
ghost use Rattle.std.specs.Prelude.{◌≡◌, ◌∷◌, [], if◌then◌else◌, IfOk, IfSome, IsTrue, List, map, OnOk, ℕ};
ghost use Rattle.q_ages.specs.Adding.{Adds, IsOpened};
ghost use Rattle.q_ages.specs.Counting.{counts_of, sender_domain};
ghost use Rattle.q_host.specs.Calls.{Stays};
ghost use Rattle.q_host.specs.Faults.{DiskCause};
ghost use Rattle.q_model.specs.Lists.{has_none};
ghost use Rattle.q_model.specs.Message.{address_at, Message};
ghost use Rattle.q_model.specs.Texts.{domain_of};
ghost use Rattle.q_pending.specs.Readings.{IsPendingAhead, IsReading};
ghost use Rattle.q_walk.specs.Walks.{IsFound};

use q_host::{Host, HostError};
use q_message::{MessageError, read_head};
use q_model::{Address, Hop, Moment, split_domain};
use q_pending::Pending;
use q_shape::AgeTable;
use q_walk::Found;
use std::alloc::Global;

/// A reader of the pending recipients of a message that was found; none where its file is gone or
/// can't be read.
fn open<H: Host>(alloc: Global, host: &mut H, found: &Found) -> Result<Option<Pending>, HostError>
    ensures reading { IfOk result (λ o. IfSome o (λ p. IsTrue H.tells
        → IsReading (H.view host.old).files p)) }
    ensures opened { IfOk result (λ o. IsTrue H.tells → (m : Message)
        → IsFound (H.view host.old).files m found.now → IsOpened (H.view host.old).files m o) }
    ensures stays { IsTrue H.tells → Stays (H.view host.old) (H.view host.new) }
    ensures cause { DiskCause (H.faults host.old) (H.faults host.new) result }
{
    if !host.has(found.spot.area, found.spot.name)? {
        return Ok(None);
    }
    match read_head(host, found.spot) {
        Ok(head) => Ok(Some(Pending::new(alloc, host, found.spot, found.id, &head)?)),
        Err(MessageError::Disk) => Err(HostError::Disk),
        Err(MessageError::NoMemory) => Err(HostError::NoMemory),
        Err(MessageError::NotAMessage { .. }) => Ok(None),
    }
}

/// The name under which a sender's messages are counted.
fn sender_domain(sender: &Option<Address>) -> Hop
    ensures { result ≡ sender_domain sender.now }
{
    match sender {
        Some(address) => split_domain(address),
        None => Hop::new(b"MAILER-DAEMON").unwrap(),
    }
}

/// Counts a message under its sender's domain, where it has a pending recipient.
fn count_sender<H: Host>(
    alloc: Global,
    host: &mut H,
    pending: &mut Pending,
    sender: &Option<Address>,
    age: u64,
    table: &mut AgeTable,
) -> Result<(), HostError>
    requires reading { IsTrue H.tells → IsReading (H.view host.old).files pending.old }
    ensures counted { OnOk result (IsTrue H.tells → (m : Message) → (positions : List ℕ)
        → IsPendingAhead (H.view host.old).files m pending.old positions
        → Adds (if has_none positions then [] else (sender_domain sender.now, age, 1) ∷ [])
        table.old table.new) }
    ensures stays { IsTrue H.tells → Stays (H.view host.old) (H.view host.new) }
    ensures cause { DiskCause (H.faults host.old) (H.faults host.new) result }
{
    let Some(_) = pending.next(host)? else {
        return Ok(());
    };
    table.add(alloc, &sender_domain(sender), age, 1)?;
    Ok(())
}

/// Counts each pending recipient under its domain.
fn count_recipients<H: Host>(
    alloc: Global,
    host: &mut H,
    pending: &mut Pending,
    age: u64,
    table: &mut AgeTable,
) -> Result<(), HostError>
    requires reading { IsTrue H.tells → IsReading (H.view host.old).files pending.old }
    ensures counted { OnOk result (IsTrue H.tells → (m : Message) → (positions : List ℕ)
        → IsPendingAhead (H.view host.old).files m pending.old positions
        → Adds (map (λ p. (domain_of (address_at m p), age, 1)) positions) table.old table.new) }
    ensures stays { IsTrue H.tells → Stays (H.view host.old) (H.view host.new) }
    ensures cause { DiskCause (H.faults host.old) (H.faults host.new) result }
{
    loop {
        let Some(taken) = pending.next(host)? else {
            return Ok(());
        };
        table.add(alloc, &split_domain(&taken.address), age, 1)?;
    }
}

/// Counts a message: each pending recipient, or the message itself under its sender's domain.
pub(crate) fn count_message<H: Host>(
    alloc: Global,
    host: &mut H,
    now: Moment,
    senders: bool,
    found: &Found,
    table: &mut AgeTable,
) -> Result<(), HostError>
    ensures counted { OnOk result (IsTrue H.tells → (m : Message)
        → IsFound (H.view host.old).files m found.now
        → Adds (counts_of senders now m) table.old table.new) }
    ensures stays { IsTrue H.tells → Stays (H.view host.old) (H.view host.new) }
    ensures cause { DiskCause (H.faults host.old) (H.faults host.new) result }
{
    let Some(mut pending) = open(alloc, host, found)? else {
        return Ok(());
    };
    let head = &found.head.head;
    let age = now.saturating_sub(head.arrival);
    if senders {
        return count_sender(alloc, host, &mut pending, &head.sender, age, table);
    }
    count_recipients(alloc, host, &mut pending, age, table)
}
