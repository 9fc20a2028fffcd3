//! Reading what a delivery needs of its message's queue file.
ghost use Rattle.std.specs.Prelude.{◌≡◌, ◌<◌, ◌↔◌, All, IsTrue, IfOk, IfSome, IfNone};
ghost use Rattle.q_host.specs.Calls.{Stays};
ghost use Rattle.q_host.specs.Faults.{DiskCause};
ghost use Rattle.q_agent.specs.Readings.{IsLetter, readable};
ghost use Rattle.q_agent.specs.Requests.{IsReadable};
ghost use Rattle.q_session.specs.Mails.{Mail, StandsAt};

use q_host::{Host, HostError};
use q_message::{MessageError, read_head, read_names};
use q_model::{Addresses, FileHead, Positions, Spot};
use std::alloc::Global;

/// The head of a queue file, and the addresses of some of its recipients.
#[derive(Drop)]
pub(crate) struct Letter {
    pub(crate) file: FileHead,
    pub(crate) to: Addresses,
}

/// What was read, or nothing where the file has no such form.
fn readable<T: Drop>(read: Result<T, MessageError>) -> Result<Option<T>, HostError>
    ensures { result ≡ readable read }
{
    match read {
        Ok(found) => Ok(Some(found)),
        Err(MessageError::Disk) => Err(HostError::Disk),
        Err(MessageError::NoMemory) => Err(HostError::NoMemory),
        Err(MessageError::NotAMessage { .. }) => Ok(None),
    }
}

fn are_below(positions: &[u32], recipients: u32) -> bool
    ensures { IsTrue result ↔ All (λ position. position < recipients) positions.now }
{
    positions.iter().all(|position| *position < recipients)
}

/// Reads the head of a queue file and the addresses at these positions. `None` comes only on a host
/// that doesn't tell its files, where the file has no such form or no such position.
pub(crate) fn read_letter<H: Host>(
    alloc: Global,
    host: &mut H,
    spot: Spot,
    positions: &Positions,
) -> Result<Option<Letter>, HostError>
    requires there { IsTrue H.tells → (mail : Mail) × StandsAt H.tells (H.view host.old) spot mail
        × IsReadable mail positions.now }
    ensures letter { IfOk result (λ r. IfSome r
        (IsLetter H.tells (H.view host.old) spot positions.now)) }
    ensures none { IfOk result (λ r. IfNone r (IsTrue H.tells → ⊥)) }
    ensures stays { IsTrue H.tells → Stays (H.view host.old) (H.view host.new) }
    ensures cause { DiskCause (H.faults host.old) (H.faults host.new) result }
{
    let Some(file) = readable(read_head(host, spot))? else {
        return Ok(None);
    };
    if !are_below(positions.as_slice(), file.recipients) {
        return Ok(None);
    }
    let Some(to) = readable(read_names(alloc, host, spot, &file, positions))? else {
        return Ok(None);
    };
    // There are as many wherever the host tells its files.
    if to.len() != positions.len() {
        return Ok(None);
    }
    Ok(Some(Letter { file, to }))
}
