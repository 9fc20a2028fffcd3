//! Telling the pending recipients of a message.
ghost use Rattle.std.specs.BTreeMap.{get};
ghost use Rattle.std.specs.Ordering.{nat_cmp};
ghost use Rattle.std.specs.Prelude.{◌≡◌, ◌<◌, ◌^◌, IfNone, IfOk, IfSome, IsSomeAnd, IsTrue, length, List, OnErr, OnOk, ℕ};
ghost use Rattle.q_host.specs.Calls.{Stays};
ghost use Rattle.q_host.specs.Faults.{DiskCause};
ghost use Rattle.q_host.specs.View.{Told};
ghost use Rattle.q_listing.specs.Listings.{coded_line, lines_by, notes_in, recipient_lines};
ghost use Rattle.q_message.specs.FileHeads.{IsHead};
ghost use Rattle.q_message.specs.Told.{IsThere, TellsOf};
ghost use Rattle.q_model.specs.Message.{Message, pending};
ghost use Rattle.q_pending.specs.Readings.{IsFileOfMessage, IsPendingAhead, IsReading, pending_left};
ghost use Rattle.q_telling.specs.Telling.{OnlyTells, TellingCause, TellsFront, TellsMore};
ghost use Rattle.q_walk.specs.Walks.{IsFound};

use crate::codes::{Codes, code_of, codes_of};
use crate::lines::add_recipient;
use q_host::{Host, HostError};
use q_message::{MessageError, read_head};
use q_model::{FileHead, Spot, Taken};
use q_pending::Pending;
use q_telling::tell_text;
use q_walk::Found;
use std::alloc::Global;

/// Tells the line of a pending recipient, with the code of its position.
fn tell_recipient<H: Host>(
    alloc: Global,
    host: &mut H,
    codes: &Codes,
    taken: &Taken,
) -> Result<(), HostError>
    ensures told { OnOk result (Told H.tells H.view host.old host.new (TellsMore
        (coded_line (get nat_cmp codes.now taken.now.position) taken.now.address))) }
    ensures front { OnErr result (Told H.tells H.view host.old host.new (TellsFront
        (coded_line (get nat_cmp codes.now taken.now.position) taken.now.address))) }
    ensures only { Told H.tells H.view host.old host.new OnlyTells }
    ensures cause { TellingCause (H.faults host.old) (H.faults host.new) result }
{
    let code = code_of(codes, taken.position);
    let mut text = Vec::new(alloc);
    add_recipient(alloc, &mut text, code, &taken.address)?;
    tell_text(host, text.as_slice())
}

/// Tells a line for each recipient that the reader gives, and says how many they are.
fn tell_each<H: Host>(
    alloc: Global,
    host: &mut H,
    codes: &Codes,
    reader: &mut Pending,
) -> Result<u32, HostError>
    requires reading { IsTrue H.tells → IsReading (H.view host.old).files reader.old }
    requires few { pending_left reader.old < 2 ^ 32 }
    ensures told { IfOk result (λ count. IsTrue H.tells → (m : Message) → (positions : List ℕ)
        → IsPendingAhead (H.view host.old).files m reader.old positions
        → (count ≡ length positions) × TellsMore (lines_by (get nat_cmp codes.now) m positions)
        (H.view host.old) (H.view host.new)) }
    ensures front { OnErr result (IsTrue H.tells → (m : Message) → (positions : List ℕ)
        → IsPendingAhead (H.view host.old).files m reader.old positions
        → TellsFront (lines_by (get nat_cmp codes.now) m positions)
        (H.view host.old) (H.view host.new)) }
    ensures only { Told H.tells H.view host.old host.new OnlyTells }
    ensures cause { TellingCause (H.faults host.old) (H.faults host.new) result }
{
    let mut count = 0;
    loop {
        let Some(taken) = reader.next(host)? else {
            return Ok(count);
        };
        tell_recipient(alloc, host, codes, &taken)?;
        count += 1;
    }
}

/// The head of the queue file at the spot; `None` where no queue file stands there.
fn head_at<H: Host>(host: &mut H, spot: Spot) -> Result<Option<FileHead>, HostError>
    ensures there { IfOk result (λ o. IfSome o (λ _. IsThere H.tells (H.view host.old) spot)) }
    ensures head { IfOk result (λ o. IfSome o (λ head. TellsOf H.tells (H.view host.old) spot
        (IsHead head))) }
    ensures none { IfOk result (λ o. IfNone o (IsTrue H.tells → (m : Message)
        → IsFileOfMessage (H.view host.old).files m spot → ⊥)) }
    ensures stays { IsTrue H.tells → Stays (H.view host.old) (H.view host.new) }
    ensures cause { DiskCause (H.faults host.old) (H.faults host.new) result }
{
    if !host.has(spot.area, spot.name)? {
        return Ok(None);
    }
    match read_head(host, spot) {
        Ok(head) => Ok(Some(head)),
        Err(MessageError::Disk) => Err(HostError::Disk),
        Err(MessageError::NoMemory) => Err(HostError::NoMemory),
        Err(MessageError::NotAMessage { .. }) => Ok(None),
    }
}

/// A reader of the pending recipients of a message that was found. That a queue file stands where
/// the walk found it is sure only where the files stand for a book, so its head is read once more.
pub fn reader_of<H: Host>(
    alloc: Global,
    host: &mut H,
    found: &Found,
) -> Result<Option<Pending>, HostError>
    ensures reading { IfOk result (λ o. IfSome o (λ reader. IsTrue H.tells
        → IsReading (H.view host.old).files reader)) }
    ensures few { IfOk result (λ o. IfSome o (λ reader. pending_left reader < 2 ^ 32)) }
    ensures ahead { IfOk result (λ o. IsTrue H.tells → (m : Message)
        → IsFound (H.view host.old).files m found.now
        → IsSomeAnd o (λ reader. IsPendingAhead (H.view host.old).files m reader (pending m))) }
    ensures stays { IsTrue H.tells → Stays (H.view host.old) (H.view host.new) }
    ensures cause { DiskCause (H.faults host.old) (H.faults host.new) result }
{
    let Some(head) = head_at(host, found.spot)? else {
        return Ok(None);
    };
    let reader = Pending::new(alloc, host, found.spot, found.id, &head)?;
    Ok(Some(reader))
}

/// Tells a line for each pending recipient of a message that was found, with the last code that was
/// noted of it, and says how many they are.
pub(crate) fn tell_recipients<H: Host>(
    alloc: Global,
    host: &mut H,
    found: &Found,
) -> Result<u32, HostError>
    ensures told { IfOk result (λ count. IsTrue H.tells → (m : Message)
        → IsFound (H.view host.old).files m found.now
        → (count ≡ length (pending m)) × TellsMore
        (recipient_lines (notes_in (H.view host.old).files m.id) m)
        (H.view host.old) (H.view host.new)) }
    ensures front { OnErr result (IsTrue H.tells → (m : Message)
        → IsFound (H.view host.old).files m found.now → TellsFront
        (recipient_lines (notes_in (H.view host.old).files m.id) m)
        (H.view host.old) (H.view host.new)) }
    ensures only { Told H.tells H.view host.old host.new OnlyTells }
    ensures cause { TellingCause (H.faults host.old) (H.faults host.new) result }
{
    let codes = codes_of(alloc, host, found.id)?;
    match reader_of(alloc, host, found)? {
        Some(mut reader) => tell_each(alloc, host, &codes, &mut reader),
        None => Ok(0),
    }
}
