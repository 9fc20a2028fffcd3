//! Reading the addresses at positions of a queue file.
ghost use Rattle.std.specs.Prelude.{◌≤◌, ◌<◌, All, IsTrue, IfOk, OnOk};
ghost use Rattle.q_host.specs.Calls.{Stays};
ghost use Rattle.q_message.specs.Causes.{ReadCause};
ghost use Rattle.q_message.specs.Names.{AreNames, HasHead, IsNext, IsOnBy, IsPast, IsPastBy, IsRecipient, IsSought, TellsAt, GivesReceiver, MovesBehind, FindsNone};
ghost use Rattle.q_message.specs.Told.{IsThere, OnNoMessage, TellsOf};

use crate::body::Recipient;
use crate::error::MessageError;
use crate::recipients::{front_recipient, recipient_size, version_at};
use crate::window::Window;
use q_host::Host;
use q_model::{Addresses, FileHead, Positions, Receiver, Spot};
use std::alloc::Global;

/// Reads the recipient at which the window stands, and moves to the next one.
fn next_recipient<H: Host>(
    host: &mut H,
    spot: Spot,
    window: &mut Window,
) -> Result<Recipient, MessageError>
    requires { IsThere H.tells (H.view host.old) spot }
    ensures is { IfOk result (λ r. TellsAt H.tells (H.view host.old) spot window.old (IsRecipient r)) }
    ensures stands { OnOk result (TellsAt H.tells (H.view host.old) spot window.old
        (IsNext window.new)) }
    ensures no_message { OnNoMessage result (λ _. TellsAt H.tells
        (H.view host.old) spot window.old IsPast) }
    ensures stays { IsTrue H.tells → Stays (H.view host.old) (H.view host.new) }
    ensures cause { ReadCause (H.faults host.old) (H.faults host.new) result }
{
    window.fill(host, spot)?;
    let front = window.bytes();
    let version = version_at(front);
    let Some(recipient) = front_recipient(version, front) else {
        return Err(MessageError::NotAMessage { place: window.at() });
    };
    window.skip(recipient_size(version, &recipient));
    Ok(recipient)
}

/// Passes over so many recipients.
fn pass_recipients<H: Host>(
    host: &mut H,
    spot: Spot,
    window: &mut Window,
    count: u32,
) -> Result<(), MessageError>
    requires { IsThere H.tells (H.view host.old) spot }
    ensures stands { OnOk result (TellsAt H.tells (H.view host.old) spot window.old
        (IsOnBy count window.new)) }
    ensures no_message { OnNoMessage result (λ _. TellsAt H.tells (H.view host.old) spot window.old
        (IsPastBy count)) }
    ensures stays { IsTrue H.tells → Stays (H.view host.old) (H.view host.new) }
    ensures cause { ReadCause (H.faults host.old) (H.faults host.new) result }
{
    for _ in 0..count {
        next_recipient(host, spot, window)?;
    }
    Ok(())
}

/// How many recipients are to be passed over to come to a position, after the window went back to
/// the first one where it stood behind the position.
fn seek(window: &mut Window, first_at: u64, from: u32, position: u32) -> u32
    ensures within { result ≤ position }
    ensures stands { IsSought first_at from position window.old window.new result }
{
    if position < from {
        window.restart(first_at);
        return position;
    }
    position - from
}

/// Reads the addresses at a position, and moves to the position behind it. The window stands at the
/// recipient of the position `from`.
fn read_receiver<H: Host>(
    host: &mut H,
    spot: Spot,
    window: &mut Window,
    first_at: u64,
    from: u32,
    position: u32,
) -> Result<Receiver, MessageError>
    requires { IsThere H.tells (H.view host.old) spot }
    ensures receiver { GivesReceiver H.tells
        (H.view host.old) spot window.old from first_at position result }
    ensures stands { MovesBehind H.tells (H.view host.old) spot window.old from first_at position
        window.new result }
    ensures no_message { FindsNone H.tells
        (H.view host.old) spot window.old from first_at position result }
    ensures stays { IsTrue H.tells → Stays (H.view host.old) (H.view host.new) }
    ensures cause { ReadCause (H.faults host.old) (H.faults host.new) result }
{
    let count = seek(window, first_at, from, position);
    pass_recipients(host, spot, window, count)?;
    let recipient = next_recipient(host, spot, window)?;
    Ok(Receiver {
        address: recipient.address,
        original: recipient.original,
    })
}

/// The addresses of the recipients at these positions, in the order of the positions, whether they
/// are marked or not.
///
/// The head is that of the file, but for its number of marked recipients. The file is read 16,384
/// bytes at a time, once where the positions rise. It is read from its first recipient again for
/// each position that isn't above the one before. Where the host tells its files, `NotAMessage`
/// never comes.
pub fn read_names<H: Host>(
    alloc: Global,
    host: &mut H,
    spot: Spot,
    file: &FileHead,
    positions: &Positions,
) -> Result<Addresses, MessageError>
    requires there { IsThere H.tells (H.view host.old) spot }
    requires reading { TellsOf H.tells (H.view host.old) spot (λ bytes. HasHead bytes file.now) }
    requires within { All (λ position. position < file.now.recipients) positions.now }
    ensures names { IfOk result (λ names. TellsOf H.tells (H.view host.old) spot
        (AreNames positions.now names)) }
    ensures no_message { OnNoMessage result (λ _. IsTrue H.tells → ⊥) }
    ensures stays { IsTrue H.tells → Stays (H.view host.old) (H.view host.new) }
    ensures cause { ReadCause (H.faults host.old) (H.faults host.new) result }
{
    let first_at = file.first_at;
    let mut window = Window::new(first_at);
    let mut from = 0;
    let mut names = Addresses::new(alloc);
    for position in positions.as_slice() {
        let position = *position;
        let receiver = read_receiver(host, spot, &mut window, first_at, from, position)?;
        names.push(receiver)?;
        from = position.saturating_add(1);
    }
    Ok(names)
}
