//! Reading the head of a queue file, for which the whole file is passed over.
ghost use Rattle.std.specs.Prelude.{◌≡◌, ◌≤◌, ◌+◌, ◌*◌, drop, IfOk, IsTrue, OnOk};
ghost use Rattle.std.specs.Option.{option_and_then};
ghost use Rattle.q_model.specs.QueueFile.{arrival_of, counts_of, sender_of};
ghost use Rattle.q_host.specs.Calls.{Stays};
ghost use Rattle.q_message.specs.Causes.{ReadCause};
ghost use Rattle.q_message.specs.FileHeads.{IsFault, IsHead};
ghost use Rattle.q_message.specs.Fronts.{front_body};
ghost use Rattle.q_message.specs.Readings.{ContentRead, EndRead, HeadRead, MarksRead, start_from, start_size, StartRead};
ghost use Rattle.q_message.specs.Told.{IsThere, OnNoMessage, TellsEach, TellsOf, TellsShown, TellsPassed, StaysShown};

use crate::body::{Counts, arrival_in, counts_in, sender_in};
use crate::error::MessageError;
use crate::front::{begins_record, from_offset, front_body};
use crate::recipients::{fault_in, front_recipient, recipient_size};
use crate::window::Window;
use q_host::Host;
use q_model::{Address, FileHead, Head, Moment, Spot};
use std::marker::Model;

/// What the records before those of the recipients say.
#[derive(Clone, Copy, Debug, PartialEq, Eq)]
struct Start {
    counts: Counts,
    head: Head,
}

impl Model for Start {
    ghost use Rattle.q_message.specs.Readings.{Start as StartValue};

    ghost Value = { StartValue };

    ghost view = { λ s. record { counts = s.counts; head = s.head } };

    ghost inverse = { λ v. record { counts = v.counts; head = v.head } };
}

/// Where the records of the counts, of the arrival and of the sender begin.
const COUNTS_AT: u64 = 0;

const ARRIVAL_AT: u64 = 17;

const SENDER_AT: u64 = 30;

fn front_counts(bytes: &[u8]) -> Option<Counts>
    ensures { result ≡ option_and_then counts_of (front_body 67 bytes.now) }
{
    counts_in(front_body(bytes, b'C')?)
}

fn front_arrival(bytes: &[u8]) -> Option<Moment>
    ensures { result ≡ option_and_then arrival_of (front_body 84 bytes.now) }
{
    arrival_in(front_body(bytes, b'T')?)
}

fn front_sender(bytes: &[u8]) -> Option<Option<Address>>
    ensures { result ≡ option_and_then sender_of (front_body 83 bytes.now) }
{
    sender_in(front_body(bytes, b'S')?)
}

/// What the bytes say before the recipients, or the offset of the record that breaks the form.
fn start_in(bytes: &[u8]) -> Result<Start, u64>
    ensures { result ≡ start_from bytes.now }
{
    let counts = front_counts(bytes).ok_or(COUNTS_AT)?;
    let arrival = front_arrival(from_offset(bytes, ARRIVAL_AT)).ok_or(ARRIVAL_AT)?;
    let sender = front_sender(from_offset(bytes, SENDER_AT)).ok_or(SENDER_AT)?;
    Ok(Start {
        counts,
        head: Head { sender, arrival },
    })
}

/// How many bytes the records before those of the recipients have.
fn start_size(head: &Head) -> u32
    ensures size { result ≡ start_size head.now }
    ensures few { result ≤ 289 }
{
    match &head.sender {
        Some(sender) => 35 + sender.bytes().len() as u32,
        None => 35,
    }
}

/// Reads the records before those of the recipients.
fn read_start<H: Host>(host: &mut H, spot: Spot, window: &mut Window) -> Result<Start, MessageError>
    requires there { IsThere H.tells (H.view host.old) spot }
    requires front { window.old.at ≡ 0 }
    ensures reads { TellsShown H.tells (H.view host.old) spot window.old (StartRead result) }
    ensures shows { OnOk result (StaysShown H.tells (H.view host.old) spot window.old window.new) }
    ensures at { IfOk result (λ s. window.new.at ≡ start_size s.head) }
    ensures near { OnOk result (window.new.at ≤ 289) }
    ensures few { IfOk result (λ s. s.counts.recipients ≤ 50000) }
    ensures short { IfOk result (λ s. s.counts.content ≤ 40000000) }
    ensures stays { IsTrue H.tells → Stays (H.view host.old) (H.view host.new) }
    ensures cause { ReadCause (H.faults host.old) (H.faults host.new) result }
{
    window.fill(host, spot)?;
    match start_in(window.bytes()) {
        Ok(start) => {
            window.skip(start_size(&start.head));
            Ok(start)
        }
        Err(place) => Err(MessageError::NotAMessage { place }),
    }
}

/// Passes over so many recipients, and counts those that are marked.
fn count_marked<H: Host>(
    host: &mut H,
    spot: Spot,
    window: &mut Window,
    version: u32,
    recipients: u32,
) -> Result<u32, MessageError>
    requires there { IsThere H.tells (H.view host.old) spot }
    requires near { window.old.at ≤ 289 }
    requires few { recipients ≤ 50000 }
    ensures reads { TellsPassed H.tells (H.view host.old) spot window.old window.new
        (MarksRead version recipients result) }
    ensures shows { OnOk result (StaysShown H.tells (H.view host.old) spot window.old window.new) }
    ensures near { window.new.at ≤ 289 + 519 * recipients }
    ensures stays { IsTrue H.tells → Stays (H.view host.old) (H.view host.new) }
    ensures cause { ReadCause (H.faults host.old) (H.faults host.new) result }
{
    let mut marked = 0;
    for _ in 0..recipients {
        window.fill(host, spot)?;
        let front = window.bytes();
        let Some(recipient) = front_recipient(version, front) else {
            let before = fault_in(version, front) as u64;
            let place = window.at() + before;
            return Err(MessageError::NotAMessage { place });
        };
        if recipient.marked {
            marked += 1;
        }
        window.skip(recipient_size(version, &recipient));
    }
    Ok(marked)
}

/// Passes over the record of the content, of which the body isn't read.
fn pass_content<H: Host>(
    host: &mut H,
    spot: Spot,
    window: &mut Window,
    content: u32,
) -> Result<(), MessageError>
    requires there { IsThere H.tells (H.view host.old) spot }
    requires near { window.old.at ≤ 25950289 }
    requires short { content ≤ 40000000 }
    ensures reads { TellsPassed H.tells (H.view host.old) spot window.old window.new
        (ContentRead content result) }
    ensures shows { OnOk result (StaysShown H.tells (H.view host.old) spot window.old window.new) }
    ensures near { window.new.at ≤ 65950294 }
    ensures stays { IsTrue H.tells → Stays (H.view host.old) (H.view host.new) }
    ensures cause { ReadCause (H.faults host.old) (H.faults host.new) result }
{
    window.fill(host, spot)?;
    let size = host.size(spot.area, spot.name)?;
    let at = window.at();
    if !begins_record(window.bytes(), b'N', content) || size < at + 5 + content as u64 {
        return Err(MessageError::NotAMessage { place: at });
    }
    window.skip(5 + content);
    Ok(())
}

/// Reads the last record, behind which nothing stands.
fn read_end<H: Host>(host: &mut H, spot: Spot, window: &mut Window) -> Result<(), MessageError>
    requires there { IsThere H.tells (H.view host.old) spot }
    requires near { window.old.at ≤ 65950294 }
    ensures reads { TellsShown H.tells (H.view host.old) spot window.old
        (EndRead window.old.at result) }
    ensures stays { IsTrue H.tells → Stays (H.view host.old) (H.view host.new) }
    ensures cause { ReadCause (H.faults host.old) (H.faults host.new) result }
{
    window.fill(host, spot)?;
    let at = window.at();
    if !begins_record(window.bytes(), b'E', 0) {
        return Err(MessageError::NotAMessage { place: at });
    }
    if window.bytes().len() > 5 {
        return Err(MessageError::NotAMessage { place: at + 5 });
    }
    Ok(())
}

/// What the records say, or the offset of the first that breaks the form.
fn read_whole<H: Host>(host: &mut H, spot: Spot) -> Result<FileHead, MessageError>
    requires { IsThere H.tells (H.view host.old) spot }
    ensures reads { TellsEach H.tells (H.view host.old) spot (HeadRead result) }
    ensures stays { IsTrue H.tells → Stays (H.view host.old) (H.view host.new) }
    ensures cause { ReadCause (H.faults host.old) (H.faults host.new) result }
{
    let mut window = Window::new(0);
    let start = read_start(host, spot, &mut window)?;
    let first_at = window.at();
    let counts = start.counts;
    let marked = count_marked(host, spot, &mut window, counts.version, counts.recipients)?;
    let content_at = window.at() + 5;
    pass_content(host, spot, &mut window, counts.content)?;
    read_end(host, spot, &mut window)?;
    Ok(FileHead {
        version: counts.version,
        head: start.head,
        recipients: counts.recipients,
        marked,
        first_at,
        content_at,
        content_len: counts.content,
    })
}

/// The head of the queue file at this place, which has to be there where the host tells its files.
///
/// The whole file is passed over, 16,384 bytes at a time, but for the content, which isn't read:
/// the call takes no memory, and its time grows with the length of the records before the content.
/// `NotAMessage` comes exactly where the bytes are no queue file of either version. Its place is the
/// offset of the first record that breaks the form, or of the first byte behind the last record.
pub fn read_head<H: Host>(host: &mut H, spot: Spot) -> Result<FileHead, MessageError>
    requires { IsThere H.tells (H.view host.old) spot }
    ensures head { IfOk result (λ head. TellsOf H.tells (H.view host.old) spot (IsHead head)) }
    ensures no_message { OnNoMessage result (λ place. TellsOf H.tells (H.view host.old) spot
        (IsFault place)) }
    // Nothing is changed.
    ensures stays { IsTrue H.tells → Stays (H.view host.old) (H.view host.new) }
    ensures cause { ReadCause (H.faults host.old) (H.faults host.new) result }
{
    read_whole(host, spot)
}
