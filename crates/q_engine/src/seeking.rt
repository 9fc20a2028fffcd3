//! The recipients of a queue file that aren't in memory yet.
//!
//! A file is read on from the place up to which it was read before, where that is kept and is where
//! to go on. Else its head is read again, and what stands before the first recipient to be read is
//! passed over, in batches. No address outlives its batch.
ghost use Rattle.std.specs.List.{list_all};
ghost use Rattle.std.specs.Prelude.{◌≡◌, ◌<◌, ◌≤◌, ◌+◌, ◌-◌, IfNone, IfOk, IfSome, IsTrue, length, min, nat_lt, None, slice_get, Some, take, true, false, ℕ};
ghost use Rattle.q_engine.specs.KeptPlaces.{HasProgress};
ghost use Rattle.q_engine.specs.Pending.{AreRead, LeavesFrom};
ghost use Rattle.q_host.specs.Calls.{Stays};
ghost use Rattle.q_host.specs.Faults.{DiskCause};
ghost use Rattle.q_message.specs.Causes.{ReadCause};
ghost use Rattle.q_message.specs.Names.{HasHead};
ghost use Rattle.q_message.specs.Pending.{HasCursor, IsPlaceBehind};
ghost use Rattle.q_message.specs.Told.{IsThere, OnNoMessage, TellsOf};
ghost use Rattle.q_model.specs.QueueFile.{queue_file};
ghost use Rattle.q_model.specs.Values.{Taken};

use q_host::{Host, HostError};
use q_message::{MessageError, read_head, read_recipients};
use q_model::{Batch, Cursor, FileHead, Spot};
use q_places::Progress;
use std::alloc::Global;

/// How many recipients are passed over at once.
const ROOM: u32 = 256;

/// Recipients that were read, and how far their message was read with them.
#[derive(Drop)]
pub(crate) struct Reading {
    pub(crate) taken: Batch,
    pub(crate) progress: Progress,
}

/// How many recipients at the front of the batch have a position below this.
fn count_below(batch: &Batch, from: u32) -> usize
    ensures few { result ≤ length batch.now.items }
    ensures below { list_all (λ t. nat_lt t.position from) (take result batch.now.items) ≡ true }
    ensures behind { (t : Taken) → slice_get batch.now.items result ≡ Some t
        → nat_lt t.position from ≡ false }
{
    for i in 0..batch.len() {
        let taken = batch.get(i);
        if taken.position >= from {
            return i;
        }
    }
    batch.len()
}

/// The place behind the first `below` recipients of a batch of 256 that was read from the cursor
/// on; `next` is the place behind all of it.
fn place_behind<H: Host>(
    host: &mut H,
    spot: Spot,
    recipients: u32,
    cursor: Cursor,
    next: Cursor,
    below: usize,
    batch: &mut Batch,
) -> Result<Cursor, MessageError>
    requires there { IsThere H.tells (H.view host.old) spot }
    requires some { 1 ≤ below }
    requires room { batch.old.room ≡ 256 }
    requires reading { TellsOf H.tells (H.view host.old) spot
        (λ bytes. HasCursor bytes recipients cursor) }
    requires whole { TellsOf H.tells (H.view host.old) spot
        (IsPlaceBehind cursor.position 256 next) }
    requires passed { recipients - next.position + below ≤ recipients - cursor.position }
    ensures place { IfOk result (λ place. TellsOf H.tells (H.view host.old) spot
        (IsPlaceBehind cursor.position (min below 256) place)) }
    ensures fewer { IfOk result (λ place.
        recipients - place.position < recipients - cursor.position) }
    ensures no_message { OnNoMessage result (λ _. IsTrue H.tells → ⊥) }
    ensures room { batch.new.room ≡ 256 }
    ensures stays { IsTrue H.tells → Stays (H.view host.old) (H.view host.new) }
    ensures cause { ReadCause (H.faults host.old) (H.faults host.new) result }
{
    if below >= ROOM as usize {
        return Ok(next);
    }
    batch.clear();
    read_recipients(host, spot, recipients, cursor, below as u32, batch)
}

/// A place in the file behind which the recipients whose mark isn't set are those from a position
/// on.
fn place_from<H: Host>(
    alloc: Global,
    host: &mut H,
    spot: Spot,
    file: &FileHead,
    from: u32,
) -> Result<Cursor, MessageError>
    requires there { IsThere H.tells (H.view host.old) spot }
    requires reading { TellsOf H.tells (H.view host.old) spot (λ bytes. HasHead bytes file.now) }
    ensures cursor { IfOk result (λ place. TellsOf H.tells (H.view host.old) spot
        (λ bytes. HasCursor bytes file.now.recipients place)) }
    ensures leaves { IfOk result (λ place. TellsOf H.tells (H.view host.old) spot
        (LeavesFrom from place.position)) }
    ensures no_message { OnNoMessage result (λ _. IsTrue H.tells → ⊥) }
    ensures stays { IsTrue H.tells → Stays (H.view host.old) (H.view host.new) }
    ensures cause { ReadCause (H.faults host.old) (H.faults host.new) result }
{
    let mut batch = Batch::new(alloc, ROOM)?;
    let mut cursor = Cursor {
        position: 0,
        at: file.first_at,
    };
    loop {
        batch.clear();
        let next = read_recipients(host, spot, file.recipients, cursor, ROOM, &mut batch)?;
        let below = count_below(&batch, from);
        if below == 0 {
            return Ok(cursor);
        }
        cursor = place_behind(host, spot, file.recipients, cursor, next, below, &mut batch)?;
    }
}

/// Reads the next recipients from a place on. There is room for one more than the file has, so that
/// a batch that isn't full is the last.
fn read_on<H: Host>(
    alloc: Global,
    host: &mut H,
    spot: Spot,
    recipients: u32,
    place: Cursor,
    max: u32,
) -> Result<Reading, MessageError>
    requires there { IsThere H.tells (H.view host.old) spot }
    requires reading { TellsOf H.tells (H.view host.old) spot
        (λ bytes. HasCursor bytes recipients place) }
    requires some { 1 ≤ max }
    ensures taken { IfOk result (λ r. (from : ℕ) → TellsOf H.tells (H.view host.old) spot
        (LeavesFrom from place.position)
        → TellsOf H.tells (H.view host.old) spot
        (AreRead from max r.taken.items r.progress.next.position)) }
    ensures few { IfOk result (λ r. length r.taken.items ≤ max) }
    ensures progress { IfOk result (λ r. TellsOf H.tells (H.view host.old) spot
        (HasProgress r.progress)) }
    ensures no_message { OnNoMessage result (λ _. IsTrue H.tells → ⊥) }
    ensures stays { IsTrue H.tells → Stays (H.view host.old) (H.view host.new) }
    ensures cause { ReadCause (H.faults host.old) (H.faults host.new) result }
{
    let room = max.min(recipients.saturating_add(1));
    let mut taken = Batch::new(alloc, room)?;
    let next = read_recipients(host, spot, recipients, place, room, &mut taken)?;
    Ok(Reading {
        taken,
        progress: Progress { recipients, next },
    })
}

/// Reads the recipients whose mark isn't set, from a position on: the first `max`.
fn read_whole<H: Host>(
    alloc: Global,
    host: &mut H,
    spot: Spot,
    from: u32,
    max: u32,
) -> Result<Reading, MessageError>
    requires there { IsThere H.tells (H.view host.old) spot }
    requires some { 1 ≤ max }
    ensures taken { IfOk result (λ r. TellsOf H.tells (H.view host.old) spot
        (AreRead from max r.taken.items r.progress.next.position)) }
    ensures few { IfOk result (λ r. length r.taken.items ≤ max) }
    ensures progress { IfOk result (λ r. TellsOf H.tells (H.view host.old) spot
        (HasProgress r.progress)) }
    ensures no_message { OnNoMessage result (λ _. TellsOf H.tells (H.view host.old) spot
        (λ bytes. queue_file bytes ≡ None)) }
    ensures stays { IsTrue H.tells → Stays (H.view host.old) (H.view host.new) }
    ensures cause { ReadCause (H.faults host.old) (H.faults host.new) result }
{
    let file = read_head(host, spot)?;
    let place = place_from(alloc, host, spot, &file, from)?;
    read_on(alloc, host, spot, file.recipients, place, max)
}

/// Reads the recipients whose mark isn't set, from a position on: the first `max`. If the message
/// was read up to that position before, it is read on from there; else its head is read again.
fn read_known<H: Host>(
    alloc: Global,
    host: &mut H,
    spot: Spot,
    known: &Progress,
    from: u32,
    max: u32,
) -> Result<Reading, MessageError>
    requires there { IsThere H.tells (H.view host.old) spot }
    requires known { TellsOf H.tells (H.view host.old) spot (HasProgress known.now) }
    requires some { 1 ≤ max }
    ensures taken { IfOk result (λ r. TellsOf H.tells (H.view host.old) spot
        (AreRead from max r.taken.items r.progress.next.position)) }
    ensures few { IfOk result (λ r. length r.taken.items ≤ max) }
    ensures progress { IfOk result (λ r. TellsOf H.tells (H.view host.old) spot
        (HasProgress r.progress)) }
    ensures no_message { OnNoMessage result (λ _. TellsOf H.tells (H.view host.old) spot
        (λ bytes. queue_file bytes ≡ None)) }
    ensures stays { IsTrue H.tells → Stays (H.view host.old) (H.view host.new) }
    ensures cause { ReadCause (H.faults host.old) (H.faults host.new) result }
{
    if known.next.position == from {
        return read_on(alloc, host, spot, known.recipients, known.next, max);
    }
    read_whole(alloc, host, spot, from, max)
}

/// The same, whether it is known how far the message was read or not.
fn read_next<H: Host>(
    alloc: Global,
    host: &mut H,
    spot: Spot,
    from: u32,
    max: u32,
    known: Option<&Progress>,
) -> Result<Reading, MessageError>
    requires there { IsThere H.tells (H.view host.old) spot }
    requires known { IfSome known (λ p. TellsOf H.tells (H.view host.old) spot
        (HasProgress p.now)) }
    requires some { 1 ≤ max }
    ensures taken { IfOk result (λ r. TellsOf H.tells (H.view host.old) spot
        (AreRead from max r.taken.items r.progress.next.position)) }
    ensures few { IfOk result (λ r. length r.taken.items ≤ max) }
    ensures progress { IfOk result (λ r. TellsOf H.tells (H.view host.old) spot
        (HasProgress r.progress)) }
    ensures no_message { OnNoMessage result (λ _. TellsOf H.tells (H.view host.old) spot
        (λ bytes. queue_file bytes ≡ None)) }
    ensures stays { IsTrue H.tells → Stays (H.view host.old) (H.view host.new) }
    ensures cause { ReadCause (H.faults host.old) (H.faults host.new) result }
{
    match known {
        Some(known) => read_known(alloc, host, spot, known, from, max),
        None => read_whole(alloc, host, spot, from, max),
    }
}

/// Reads the recipients of a queue file whose mark isn't set, from a position on: the first `max`.
/// Where it is known that the message was read up to there, it is read on. None where a record
/// can't be read: where the host tells its files, only where the file is no queue file.
pub(crate) fn read_pending<H: Host>(
    alloc: Global,
    host: &mut H,
    spot: Spot,
    from: u32,
    max: u32,
    known: Option<&Progress>,
) -> Result<Option<Reading>, HostError>
    requires there { IsThere H.tells (H.view host.old) spot }
    requires known { IfSome known (λ p. TellsOf H.tells (H.view host.old) spot
        (HasProgress p.now)) }
    requires some { 1 ≤ max }
    ensures taken { IfOk result (λ found. IfSome found (λ r. TellsOf H.tells (H.view host.old) spot
        (AreRead from max r.taken.items r.progress.next.position))) }
    ensures few { IfOk result (λ found. IfSome found (λ r. length r.taken.items ≤ max)) }
    ensures progress { IfOk result (λ found. IfSome found (λ r. TellsOf H.tells (H.view host.old) spot
        (HasProgress r.progress))) }
    ensures none { IfOk result (λ found. IfNone found (TellsOf H.tells (H.view host.old) spot
        (λ bytes. queue_file bytes ≡ None))) }
    ensures stays { IsTrue H.tells → Stays (H.view host.old) (H.view host.new) }
    ensures cause { DiskCause (H.faults host.old) (H.faults host.new) result }
{
    match read_next(alloc, host, spot, from, max, known) {
        Ok(reading) => Ok(Some(reading)),
        Err(MessageError::Disk) => Err(HostError::Disk),
        Err(MessageError::NoMemory) => Err(HostError::NoMemory),
        Err(MessageError::NotAMessage { .. }) => Ok(None),
    }
}
