//! The notice of a message, made of its queue file and of its failure log.
ghost use Rattle.std.specs.Prelude.{◌≡◌, ◌≤◌, IfNone, IfOk, IfSome, IsTrue, length, min};
ghost use Rattle.q_engine.specs.BounceTexts.{IsContentFront, TellsNotice};
ghost use Rattle.q_host.specs.Calls.{Stays};
ghost use Rattle.q_host.specs.Faults.{DiskCause};
ghost use Rattle.q_message.specs.FileHeads.{IsHead};
ghost use Rattle.q_message.specs.Told.{IsThere, TellsOf};

use crate::failures::{failures_at, positions_of};
use crate::read_fault::unless_damaged;
use q_host::{Host, HostError};
use q_message::read_names;
use q_model::{Address, Bytes, FileHead, Id, MOST_RETURNED_BYTES, Spot};
use q_notice::notice;
use std::alloc::Global;

fn front_size(size: u32) -> usize
    ensures { result ≡ min size 50000 }
{
    if size < MOST_RETURNED_BYTES {
        size as usize
    } else {
        MOST_RETURNED_BYTES as usize
    }
}

/// The front of the content of the message whose file, with this head, stands at the spot.
fn content_front<H: Host>(
    alloc: Global,
    host: &mut H,
    spot: Spot,
    head: &FileHead,
) -> Result<Bytes, HostError>
    requires there { IsThere H.tells (H.view host.old) spot }
    requires reading { TellsOf H.tells (H.view host.old) spot (IsHead head.now) }
    ensures front { IfOk result (λ front. TellsOf H.tells (H.view host.old) spot
        (IsContentFront front)) }
    ensures short { IfOk result (λ front. length front ≤ 50000) }
    ensures stays { IsTrue H.tells → Stays (H.view host.old) (H.view host.new) }
    ensures cause { DiskCause (H.faults host.old) (H.faults host.new) result }
{
    let mut bytes = vec![in alloc; 0u8; front_size(head.content_len)]?;
    let count = host.read(spot.area, spot.name, head.content_at, bytes.as_mut_slice())?;
    bytes.truncate(count);
    Ok(Bytes::from_vec(bytes))
}

/// The notice of the message whose file, with this head, stands at the spot, for this sender. None
/// where a name can't be read, which never comes where the host tells its files.
pub(crate) fn notice_at<H: Host>(
    alloc: Global,
    host: &mut H,
    spot: Spot,
    id: Id,
    head: &FileHead,
    sender: &Address,
) -> Result<Option<Bytes>, HostError>
    requires there { IsThere H.tells (H.view host.old) spot }
    requires reading { TellsOf H.tells (H.view host.old) spot (IsHead head.now) }
    requires few { head.now.recipients ≤ 50000 }
    ensures notice { IfOk result (λ o. IfSome o (λ text. IsTrue H.tells
        → TellsNotice (H.view host.old) spot id sender.now text)) }
    ensures read { IfOk result (λ o. IfNone o (IsTrue H.tells → ⊥)) }
    ensures short { IfOk result (λ o. IfSome o (λ text. length text ≤ 40000000)) }
    ensures stays { IsTrue H.tells → Stays (H.view host.old) (H.view host.new) }
    ensures cause { DiskCause (H.faults host.old) (H.faults host.new) result }
{
    let failures = failures_at(alloc, host, id, head.recipients)?;
    let positions = positions_of(alloc, failures.as_slice())?;
    let names = match read_names(alloc, host, spot, head, &positions) {
        Ok(names) => names,
        Err(error) => return unless_damaged(error),
    };
    // There are as many wherever the host tells its files.
    if names.len() != failures.len() {
        return Ok(None);
    }
    let front = content_front(alloc, host, spot, head)?;
    let text = notice(
        alloc,
        id,
        sender,
        &failures,
        &names,
        head.content_len,
        front.as_slice(),
    )?;
    Ok(Some(text))
}
