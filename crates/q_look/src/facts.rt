//! What a queue file says, and the files of its id beside it.
ghost use Rattle.std.specs.Option.{option_map};
ghost use Rattle.std.specs.Prelude.{◌≡◌, ◌≤◌, IfOk, IfSome, IsTrue};
ghost use Rattle.q_host.specs.Calls.{Stays};
ghost use Rattle.q_host.specs.Faults.{DiskCause};
ghost use Rattle.q_look.specs.FileFacts.{found_in, has_bounce_in, stands_alone_in};
ghost use Rattle.q_look.specs.Forms.{HasRecipients, IsFileName, IsLookedAt};
ghost use Rattle.q_look.specs.Unreadable.{unreadable};
ghost use Rattle.q_message.specs.FileHeads.{head_of};
ghost use Rattle.q_message.specs.Told.{IsThere, TellsOf};
ghost use Rattle.q_model.specs.QueueFile.{queue_file};

use crate::failed::failed_at;
use q_core::{FileFacts, Found};
use q_host::{Host, HostError};
use q_message::{MessageError, read_head};
use q_model::{Area, DeferredName, FileHead, Id, MOST_RECIPIENTS, Spot, id_name};
use std::alloc::Global;

/// What the reader of a queue file answers: nothing, where the file is none.
pub(crate) fn unreadable<T: Drop>(error: MessageError) -> Result<Option<T>, HostError>
    ensures { result ≡ unreadable error }
{
    match error {
        MessageError::Disk => Err(HostError::Disk),
        MessageError::NoMemory => Err(HostError::NoMemory),
        MessageError::NotAMessage { .. } => Ok(None),
    }
}

/// Whether it is no bounce, or the message that it is of isn't in active.
fn stands_alone<H: Host>(host: &mut H, id: Id) -> Result<bool, HostError>
    ensures alone { IfOk result (λ alone. IsTrue H.tells
        → alone ≡ stands_alone_in (H.view host.old).files id) }
    ensures stays { IsTrue H.tells → Stays (H.view host.old) (H.view host.new) }
    ensures cause { DiskCause (H.faults host.old) (H.faults host.new) result }
{
    if !id.bounce {
        return Ok(true);
    }
    let cause = Id {
        bounce: false,
        ..id
    };
    let stands = host.has(Area::Active, id_name(cause))?;
    Ok(!stands)
}

/// Whether its bounce is in incoming.
fn has_bounce<H: Host>(host: &mut H, id: Id) -> Result<bool, HostError>
    ensures bounced { IfOk result (λ bounced. IsTrue H.tells
        → bounced ≡ has_bounce_in (H.view host.old).files id) }
    ensures stays { IsTrue H.tells → Stays (H.view host.old) (H.view host.new) }
    ensures cause { DiskCause (H.faults host.old) (H.faults host.new) result }
{
    let bounce = Id { bounce: true, ..id };
    host.has(Area::Incoming, id_name(bounce))
}

/// The head of the file; None where it is no queue file. A host that tells its files never shows a
/// queue file with another number of recipients.
fn head_at<H: Host>(host: &mut H, spot: Spot) -> Result<Option<FileHead>, HostError>
    requires { IsThere H.tells (H.view host.old) spot }
    ensures head { IfOk result (λ head. TellsOf H.tells (H.view host.old) spot
        (λ bytes. head ≡ option_map head_of (queue_file bytes))) }
    ensures recipients { IfOk result (λ head. IfSome head HasRecipients) }
    ensures stays { IsTrue H.tells → Stays (H.view host.old) (H.view host.new) }
    ensures cause { DiskCause (H.faults host.old) (H.faults host.new) result }
{
    let head = match read_head(host, spot) {
        Ok(head) => head,
        Err(error) => return unreadable(error),
    };
    if head.recipients == 0 {
        return Ok(None);
    }
    if head.recipients > MOST_RECIPIENTS {
        return Ok(None);
    }
    Ok(Some(head))
}

/// What stands at the spot, the file's place: a queue file and what the spool says of its id, or a
/// damaged file.
pub(crate) fn found_at<H: Host>(
    alloc: Global,
    host: &mut H,
    spot: Spot,
    file: DeferredName,
) -> Result<Found, HostError>
    requires name { IsFileName file.id file.due }
    requires there { IsThere H.tells (H.view host.old) spot }
    ensures found { IfOk result (λ found. TellsOf H.tells (H.view host.old) spot
        (λ bytes. found ≡ found_in (H.view host.old).files file.due file.id bytes)) }
    ensures form { IfOk result IsLookedAt }
    ensures stays { IsTrue H.tells → Stays (H.view host.old) (H.view host.new) }
    ensures cause { DiskCause (H.faults host.old) (H.faults host.new) result }
{
    let DeferredName { due, id } = file;
    let alone = stands_alone(host, id)?;
    let Some(head) = head_at(host, spot)? else {
        return Ok(Found::Damaged { id, due, alone });
    };
    let failed = failed_at(alloc, host, spot, id, &head)?;
    let bounced = has_bounce(host, id)?;
    let file = FileFacts {
        arrival: head.head.arrival,
        null_sender: head.head.sender.is_none(),
        recipients: head.recipients,
        marked: head.marked,
        failures: failed.count,
        unmarked: failed.unmarked,
        bounced,
        alone,
    };
    Ok(Found::Whole { id, due, file })
}
