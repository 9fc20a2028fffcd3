//! What the failure log of a message says: how many of its recipients failed, and which of them
//! lacks its mark.
ghost use Rattle.std.specs.Prelude.{◌<◌, ◌^◌, ◌≡◌, find, IfOk, IfSome, IsTrue, length, map, slice_set, true};
ghost use Rattle.q_host.specs.Calls.{Stays};
ghost use Rattle.q_host.specs.Faults.{DiskCause};
ghost use Rattle.q_logfile.specs.Flags.{AreFlags, flag_at};
ghost use Rattle.q_look.specs.Failures.{failed_in, first_flagged, set_count};
ghost use Rattle.q_message.specs.FileHeads.{IsHead};
ghost use Rattle.q_message.specs.Told.{IsThere, TellsOf};
ghost use Rattle.q_model.specs.FailureLog.{failures_of};
ghost use Rattle.q_model.specs.QueueFile.{queue_file};
ghost use Rattle.q_model.specs.SpoolFiles.{logged_in};

use crate::facts::unreadable;
use q_host::{Host, HostError};
use q_logfile::{is_set, log_of};
use q_message::read_recipients;
use q_model::{Batch, Cursor, Failure, FileHead, Id, Spot};
use std::alloc::{AllocError, Global};

/// How many recipients of a message failed, and the least position of those that lack their mark.
#[derive(Clone, Copy, Debug, PartialEq, Eq)]
pub(crate) struct Failed {
    pub(crate) count: u32,
    pub(crate) unmarked: Option<u32>,
}

/// Which of so many positions failed, and how many of them.
#[derive(Drop)]
struct Flags {
    set: Vec<bool>,
    count: u32,
}

impl Flags {
    /// Notes that the position failed, where it has a flag.
    fn note(&mut self, position: u32)
        requires few { length self.old.set.items < 2 ^ 32 }
        requires counted { self.old.count ≡ set_count self.old.set.items }
        ensures set { self.new.set.items ≡ slice_set self.old.set.items position true }
        ensures counted { self.new.count ≡ set_count self.new.set.items }
    {
        let position = position as usize;
        if position >= self.set.len() {
            return;
        }
        if self.set[position] {
            return;
        }
        self.set[position] = true;
        self.count += 1;
    }
}

/// Which positions below `recipients` have a record. Others are passed over, and so is each record
/// whose position an earlier one has.
fn flags_of(alloc: Global, failures: &[Failure], recipients: u32) -> Result<Flags, AllocError>
    ensures set { IfOk result (λ flags. AreFlags recipients failures.now flags.set.items) }
    ensures count { IfOk result (λ flags. flags.count
        ≡ length (failures_of recipients failures.now)) }
{
    let set = vec![in alloc; false; recipients as usize]?;
    let mut flags = Flags { set, count: 0 };
    for failure in failures {
        flags.note(failure.position);
    }
    Ok(flags)
}

/// The first recipient in the batch whose position has its flag.
fn first_set(batch: &Batch, set: &[bool]) -> Option<u32>
    ensures { result ≡ find (flag_at set.now) (map (λ t. t.position) batch.now.items) }
{
    for i in 0..batch.len() {
        let position = batch.get(i).position;
        if is_set(set, position) {
            return Some(position);
        }
    }
    None
}

/// The first recipient of the file whose mark isn't set and whose position has its flag. The head
/// is that of the file. The recipients that aren't marked are in memory while it is looked for.
fn first_unmarked<H: Host>(
    alloc: Global,
    host: &mut H,
    spot: Spot,
    head: &FileHead,
    set: &[bool],
) -> Result<Option<u32>, HostError>
    requires there { IsThere H.tells (H.view host.old) spot }
    requires reading { TellsOf H.tells (H.view host.old) spot (IsHead head.now) }
    ensures first { IfOk result (λ first. TellsOf H.tells (H.view host.old) spot
        (λ bytes. IfSome (queue_file bytes) (λ m. first ≡ first_flagged set.now m))) }
    ensures stays { IsTrue H.tells → Stays (H.view host.old) (H.view host.new) }
    ensures cause { DiskCause (H.faults host.old) (H.faults host.new) result }
{
    let unmarked = head.recipients.saturating_sub(head.marked);
    if unmarked == 0 {
        return Ok(None);
    }
    let mut batch = Batch::new(alloc, unmarked)?;
    let first = Cursor {
        position: 0,
        at: head.first_at,
    };
    match read_recipients(host, spot, head.recipients, first, unmarked, &mut batch) {
        Ok(_) => {}
        Err(error) => return unreadable(error),
    }
    Ok(first_set(&batch, set))
}

/// What the failure log of an id says of the message whose queue file, with this head, stands at
/// the spot. Where there is no record the file isn't read.
pub(crate) fn failed_at<H: Host>(
    alloc: Global,
    host: &mut H,
    spot: Spot,
    id: Id,
    head: &FileHead,
) -> Result<Failed, HostError>
    requires there { IsThere H.tells (H.view host.old) spot }
    requires reading { TellsOf H.tells (H.view host.old) spot (IsHead head.now) }
    ensures failed { IfOk result (λ failed. TellsOf H.tells (H.view host.old) spot
        (λ bytes. IfSome (queue_file bytes)
        (λ m. failed ≡ failed_in (logged_in (H.view host.old).files id) m))) }
    ensures stays { IsTrue H.tells → Stays (H.view host.old) (H.view host.new) }
    ensures cause { DiskCause (H.faults host.old) (H.faults host.new) result }
{
    let records = log_of(alloc, host, id)?;
    if records.len() == 0 {
        return Ok(Failed {
            count: 0,
            unmarked: None,
        });
    }
    let flags = flags_of(alloc, records.as_slice(), head.recipients)?;
    let unmarked = first_unmarked(alloc, host, spot, head, flags.set.as_slice())?;
    Ok(Failed {
        count: flags.count,
        unmarked,
    })
}
