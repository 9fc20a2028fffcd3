//! Reading queue files that may have rotted.
ghost use Rattle.std.specs.Prelude.{◌≡◌, ◌≤◌, IfNone, IfOk, IfSome, IsTrue, None};
ghost use Rattle.q_engine.specs.ReadFaults.{unless_damaged};
ghost use Rattle.q_host.specs.Calls.{Stays};
ghost use Rattle.q_host.specs.Faults.{DiskCause};
ghost use Rattle.q_message.specs.FileHeads.{IsHead};
ghost use Rattle.q_message.specs.Told.{IsThere, TellsOf};
ghost use Rattle.q_model.specs.QueueFile.{queue_file};

use q_host::{Host, HostError};
use q_message::{MessageError, read_head};
use q_model::{FileHead, MOST_RECIPIENTS, Spot};

/// Nothing, where the file is no queue file.
pub(crate) fn unless_damaged<T: Drop>(error: MessageError) -> Result<Option<T>, HostError>
    ensures { result ≡ unless_damaged error }
{
    match error {
        MessageError::Disk => Err(HostError::Disk),
        MessageError::NoMemory => Err(HostError::NoMemory),
        MessageError::NotAMessage { .. } => Ok(None),
    }
}

/// The head of the file at the spot; None where it is no queue file. A host that tells its files never
/// shows a queue file with more recipients.
pub(crate) fn head_at<H: Host>(host: &mut H, spot: Spot) -> Result<Option<FileHead>, HostError>
    requires { IsThere H.tells (H.view host.old) spot }
    ensures head { IfOk result (λ o. IfSome o (λ head. TellsOf H.tells (H.view host.old) spot
        (IsHead head))) }
    ensures none { IfOk result (λ o. IfNone o (TellsOf H.tells (H.view host.old) spot
        (λ bytes. queue_file bytes ≡ None))) }
    ensures few { IfOk result (λ o. IfSome o (λ head. head.recipients ≤ 50000)) }
    ensures stays { IsTrue H.tells → Stays (H.view host.old) (H.view host.new) }
    ensures cause { DiskCause (H.faults host.old) (H.faults host.new) result }
{
    let head = match read_head(host, spot) {
        Ok(head) => head,
        Err(error) => return unless_damaged(error),
    };
    if head.recipients > MOST_RECIPIENTS {
        return Ok(None);
    }
    Ok(Some(head))
}
