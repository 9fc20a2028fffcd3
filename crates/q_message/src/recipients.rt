//! Reading recipients of a queue file.
ghost use Rattle.std.specs.Prelude.{◌≡◌, ◌<◌, ◌≤◌, ◌+◌, ◌-◌, ◌^◌, [], IsTrue, IfOk, length, OnOk};
ghost use Rattle.q_host.specs.Calls.{Stays};
ghost use Rattle.q_message.specs.Causes.{ReadCause};
ghost use Rattle.q_message.specs.Pending.{AreTaken, HasCursor, IsPlaceBehind};
ghost use Rattle.q_model.specs.QueueFileBytes.{original_size, recipient_size};
ghost use Rattle.q_message.specs.Readings.{fault_in, front_original, front_recipient, version_at};
ghost use Rattle.q_message.specs.Told.{IsThere, OnNoMessage, TellsOf};

use crate::body::{FIRST_VERSION, NEW_VERSION, Recipient, original_in, recipient_in};
use crate::error::MessageError;
use crate::front::{from_offset, front_body};
use crate::window::Window;
use q_host::Host;
use q_model::{Address, Batch, Cursor, Spot, Taken};

/// The offset of the mark byte in its record.
const MARK_AT: u64 = 5;

/// The version of a file of which a recipient stands at the front: the records of the second begin
/// with `O`.
pub(crate) fn version_at(bytes: &[u8]) -> u32
    ensures { result ≡ version_at bytes.now }
{
    match bytes {
        [b'O', ..] => NEW_VERSION,
        _ => FIRST_VERSION,
    }
}

/// The original address before a recipient in a file of the version.
fn front_original(version: u32, bytes: &[u8]) -> Option<Option<Address>>
    ensures { result ≡ front_original version bytes.now }
{
    if version == FIRST_VERSION {
        return Some(None);
    }
    original_in(front_body(bytes, b'O')?)
}

/// How many bytes stand before the record with a recipient's mark.
fn original_size(version: u32, original: &Option<Address>) -> u32
    ensures size { result ≡ original_size version original.now }
    ensures few { result ≤ 259 }
{
    if version == FIRST_VERSION {
        return 0;
    }
    match original {
        Some(original) => 5 + original.bytes().len() as u32,
        None => 5,
    }
}

/// The recipient whose records stand at the front of what is left of a file of the version.
pub(crate) fn front_recipient(version: u32, bytes: &[u8]) -> Option<Recipient>
    ensures { result ≡ front_recipient version bytes.now }
{
    let original = front_original(version, bytes)?;
    let size = original_size(version, &original);
    recipient_in(original, front_body(from_offset(bytes, size as u64), b'R')?)
}

/// How many bytes stand before the record that breaks the form, where no recipient stands at the
/// front.
pub(crate) fn fault_in(version: u32, bytes: &[u8]) -> u32
    ensures fault { result ≡ fault_in version bytes.now }
    ensures few { result ≤ 259 }
{
    match front_original(version, bytes) {
        Some(original) => original_size(version, &original),
        None => 0,
    }
}

/// How many bytes the records of a recipient have.
pub(crate) fn recipient_size(version: u32, recipient: &Recipient) -> u32
    ensures size { result ≡ recipient_size version recipient.now }
    ensures few { result ≤ 519 }
{
    original_size(version, &recipient.original) + 6 + recipient.address.bytes().len() as u32
}

/// The place of a mark byte, where the recipient's records begin at an offset.
fn mark_at(at: u64, version: u32, recipient: &Recipient) -> u64
    ensures { at ≤ 2 ^ 60 → result ≡ at + original_size version recipient.now.original + 5 }
{
    let size = original_size(version, &recipient.original);
    at.saturating_add(size as u64 + MARK_AT)
}

/// Takes the recipients of a queue file from the cursor on, in order, whose mark isn't set: the
/// first `max`, or all where fewer are left. They are added to the batch, which is empty and has
/// room for `max`. The answer is the place behind the last one that was taken where `max` were
/// taken, else the place behind the last recipient.
///
/// `recipients` is how many the file has, and the cursor is the place of one of them or of their
/// end. The file is read 16,384 bytes at a time. Where the host tells its files, `NotAMessage`
/// never comes.
pub fn read_recipients<H: Host>(
    host: &mut H,
    spot: Spot,
    recipients: u32,
    cursor: Cursor,
    max: u32,
    out: &mut Batch,
) -> Result<Cursor, MessageError>
    requires there { IsThere H.tells (H.view host.old) spot }
    requires some { 1 ≤ max }
    requires empty { out.old.items ≡ [] }
    requires room { max ≤ out.old.room }
    requires reading { TellsOf H.tells (H.view host.old) spot
        (λ bytes. HasCursor bytes recipients cursor) }
    ensures taken { OnOk result (TellsOf H.tells (H.view host.old) spot
        (AreTaken cursor.position max out.new.items)) }
    ensures next { IfOk result (λ next. TellsOf H.tells (H.view host.old) spot
        (IsPlaceBehind cursor.position max next)) }
    // Of every host: what was taken is passed, no more than `max` are taken, and fewer only at the
    // end.
    ensures fewer { IfOk result (λ next. recipients - next.position + length out.new.items
        ≤ recipients - cursor.position) }
    ensures few { OnOk result (length out.new.items ≤ max) }
    ensures full { IfOk result (λ next. next.position < recipients → max ≤ length out.new.items) }
    ensures no_message { OnNoMessage result (λ _. IsTrue H.tells → ⊥) }
    ensures room { out.new.room ≡ out.old.room }
    ensures stays { IsTrue H.tells → Stays (H.view host.old) (H.view host.new) }
    ensures cause { ReadCause (H.faults host.old) (H.faults host.new) result }
{
    let mut window = Window::new(cursor.at);
    let mut position = cursor.position;
    while position < recipients && out.len() < max as usize {
        window.fill(host, spot)?;
        let at = window.at();
        let front = window.bytes();
        let version = version_at(front);
        let Some(recipient) = front_recipient(version, front) else {
            return Err(MessageError::NotAMessage { place: at });
        };
        if !recipient.marked {
            out.push(Taken {
                position,
                mark_at: mark_at(at, version, &recipient),
                address: recipient.address,
            });
        }
        window.skip(recipient_size(version, &recipient));
        position += 1;
    }
    Ok(Cursor {
        position,
        at: window.at(),
    })
}
