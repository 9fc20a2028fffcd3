//! Showing what stands under an id.
ghost use Rattle.std.specs.List.{range_with_len};
ghost use Rattle.std.specs.Prelude.{◌≡◌, ◌+◌, ◌++◌, ◌<◌, ◌≤◌, ◌^◌, drop, flat_map, IfOk, IsTrue, length, List, OnErr, OnOk, Some, take, unwrap_or, ℕ};
ghost use Rattle.q_host.specs.Calls.{Stays};
ghost use Rattle.q_host.specs.Faults.{DiskCause};
ghost use Rattle.q_host.specs.View.{Told};
ghost use Rattle.q_listing.specs.Listings.{found_line, notes_in};
ghost use Rattle.q_message.specs.FileHeads.{IsHead};
ghost use Rattle.q_message.specs.Names.{AreNames};
ghost use Rattle.q_message.specs.Told.{bytes_at, IsThere, TellsOf};
ghost use Rattle.q_model.specs.Book.{Book, stands};
ghost use Rattle.q_model.specs.FilesStand.{Stands};
ghost use Rattle.q_model.specs.Message.{Message};
ghost use Rattle.q_show.specs.Finding.{fault_of};
ghost use Rattle.q_show.specs.Lines.{line_at};
ghost use Rattle.q_show.specs.Shown.{bytes_text, damage_lines, lines_text, message_text, shown_text};
ghost use Rattle.q_telling.specs.Telling.{OnlyTells, TellingCause, TellsFront, TellsMore};
ghost use Rattle.q_walk.specs.Walks.{IsFound};

use crate::content::tell_bytes;
use crate::finding::{Damage, Sought, find};
use crate::lines::{add, add_damage, add_recipients};
use crate::states::{States, states_of};
use q_host::{Host, HostError};
use q_listing::add_message;
use q_message::{MessageError, read_names};
use q_model::{Addresses, FileHead, Id, NoMemory, Positions, Spot};
use q_telling::tell_text;
use q_walk::Found;
use std::alloc::Global;

/// All positions of a message.
fn positions_of(alloc: Global, recipients: u32) -> Result<Positions, NoMemory>
    ensures { IfOk result (λ positions. positions ≡ range_with_len 0 recipients) }
{
    let mut positions = Positions::new(alloc);
    for position in 0..recipients {
        positions.push(position)?;
    }
    Ok(positions)
}

/// The addresses of all recipients in a queue file with this head. None come where the file can't be
/// read any more, as on a host that doesn't tell its files.
fn names_at<H: Host>(
    alloc: Global,
    host: &mut H,
    spot: Spot,
    head: &FileHead,
) -> Result<Addresses, HostError>
    requires there { IsThere H.tells (H.view host.old) spot }
    requires head { TellsOf H.tells (H.view host.old) spot (IsHead head.now) }
    ensures names { IfOk result (λ names. TellsOf H.tells (H.view host.old) spot
        (AreNames (range_with_len 0 head.now.recipients) names)) }
    ensures stays { IsTrue H.tells → Stays (H.view host.old) (H.view host.new) }
    ensures cause { DiskCause (H.faults host.old) (H.faults host.new) result }
{
    let positions = positions_of(alloc, head.recipients)?;
    match read_names(alloc, host, spot, head, &positions) {
        Ok(names) => Ok(names),
        Err(MessageError::NotAMessage { .. }) => Ok(Addresses::new(alloc)),
        Err(MessageError::Disk) => Err(HostError::Disk),
        Err(MessageError::NoMemory) => Err(HostError::NoMemory),
    }
}

/// The addresses of all recipients of a message that was found.
fn names_of<H: Host>(alloc: Global, host: &mut H, found: &Found) -> Result<Addresses, HostError>
    requires there { IsThere H.tells (H.view host.old) found.now.spot }
    requires head { TellsOf H.tells (H.view host.old) found.now.spot (IsHead found.now.head) }
    ensures names { IfOk result (λ names. TellsOf H.tells (H.view host.old) found.now.spot
        (AreNames (range_with_len 0 found.now.head.recipients) names)) }
    ensures stays { IsTrue H.tells → Stays (H.view host.old) (H.view host.new) }
    ensures cause { DiskCause (H.faults host.old) (H.faults host.new) result }
{
    names_at(alloc, host, found.spot, &found.head)
}

/// Adds the line of a message that was found.
fn add_found(alloc: Global, text: &mut Vec<u8>, found: &Found) -> Result<(), NoMemory>
    ensures { OnOk result (text.new.items ≡ text.old.items ++ found_line found.now) }
{
    let head = &found.head;
    let size = head.content_len;
    let arrival = head.head.arrival;
    add_message(
        alloc,
        text,
        found.place,
        found.id,
        size,
        arrival,
        &head.head.sender,
    )
}

/// Adds the lines of its recipients, of which the names and the states were read.
fn add_all(
    alloc: Global,
    text: &mut Vec<u8>,
    names: &Addresses,
    states: &States,
    found: &Found,
) -> Result<(), NoMemory>
    ensures { OnOk result (found.now.head.recipients ≤ length names.now → text.new.items
        ≡ text.old.items ++ flat_map (line_at names.now states.now)
        (range_with_len 0 found.now.head.recipients)) }
{
    add_recipients(alloc, text, names.as_slice(), states, found.head.recipients)
}

/// The lines of a message that was found, and the empty line.
fn lines_of<H: Host>(alloc: Global, host: &mut H, found: &Found) -> Result<Vec<u8>, HostError>
    requires there { IsThere H.tells (H.view host.old) found.now.spot }
    requires head { TellsOf H.tells (H.view host.old) found.now.spot (IsHead found.now.head) }
    ensures lines { IfOk result (λ text. IsTrue H.tells → (m : Message)
        → IsFound (H.view host.old).files m found.now
        → text.items ≡ lines_text (notes_in (H.view host.old).files m.id) m) }
    ensures stays { IsTrue H.tells → Stays (H.view host.old) (H.view host.new) }
    ensures cause { DiskCause (H.faults host.old) (H.faults host.new) result }
{
    let names = names_of(alloc, host, found)?;
    let states = states_of(alloc, host, found)?;
    let mut text = Vec::new(alloc);
    add_found(alloc, &mut text, found)?;
    add_all(alloc, &mut text, &names, &states, found)?;
    add(&mut text, b"\n")?;
    Ok(text)
}

/// Tells the content of a queue file with this head.
fn tell_content<H: Host>(host: &mut H, spot: Spot, head: &FileHead) -> Result<(), HostError>
    requires there { IsThere H.tells (H.view host.old) spot }
    ensures told { OnOk result (IsTrue H.tells
        → head.now.content_at + head.now.content_len < 2 ^ 64 → (file : List ℕ)
        → bytes_at (H.view host.old) spot ≡ Some file
        → TellsMore (take head.now.content_len (drop head.now.content_at file))
        (H.view host.old) (H.view host.new)) }
    ensures front { OnErr result (IsTrue H.tells
        → head.now.content_at + head.now.content_len < 2 ^ 64 → (file : List ℕ)
        → bytes_at (H.view host.old) spot ≡ Some file
        → TellsFront (take head.now.content_len (drop head.now.content_at file))
        (H.view host.old) (H.view host.new)) }
    ensures only { Told H.tells H.view host.old host.new OnlyTells }
    ensures cause { TellingCause (H.faults host.old) (H.faults host.new) result }
{
    let size = u64::from(head.content_len);
    tell_bytes(host, spot, head.content_at, size)
}

/// Tells a message that was found.
fn tell_found<H: Host>(alloc: Global, host: &mut H, found: &Found) -> Result<(), HostError>
    requires there { IsThere H.tells (H.view host.old) found.now.spot }
    requires head { TellsOf H.tells (H.view host.old) found.now.spot (IsHead found.now.head) }
    ensures told { OnOk result (IsTrue H.tells → (m : Message)
        → IsFound (H.view host.old).files m found.now
        → TellsMore (message_text (H.view host.old).files m) (H.view host.old) (H.view host.new)) }
    ensures front { OnErr result (IsTrue H.tells → (m : Message)
        → IsFound (H.view host.old).files m found.now
        → TellsFront (message_text (H.view host.old).files m) (H.view host.old) (H.view host.new)) }
    ensures only { Told H.tells H.view host.old host.new OnlyTells }
    ensures cause { TellingCause (H.faults host.old) (H.faults host.new) result }
{
    let text = match lines_of(alloc, host, found) {
        Ok(text) => text,
        Err(error) => return Err(error),
    };
    tell_text(host, text.as_slice())?;
    tell_content(host, found.spot, &found.head)
}

/// Tells the lines of a damaged file.
fn tell_lines<H: Host>(alloc: Global, host: &mut H, damage: &Damage) -> Result<(), HostError>
    ensures told { OnOk result (Told H.tells H.view host.old host.new
        (TellsMore (damage_lines damage.now.place damage.now.id damage.now.fault))) }
    ensures front { OnErr result (Told H.tells H.view host.old host.new
        (TellsFront (damage_lines damage.now.place damage.now.id damage.now.fault))) }
    ensures only { Told H.tells H.view host.old host.new OnlyTells }
    ensures cause { TellingCause (H.faults host.old) (H.faults host.new) result }
{
    let mut text = Vec::new(alloc);
    add_damage(alloc, &mut text, damage)?;
    tell_text(host, text.as_slice())
}

/// How many bytes are told of a damaged file: those before its fault, or all.
fn sound_size<H: Host>(host: &mut H, damage: &Damage) -> Result<u64, HostError>
    requires there { IsThere H.tells (H.view host.old) damage.now.spot }
    ensures size { IfOk result (λ size. IsTrue H.tells → (file : List ℕ)
        → bytes_at (H.view host.old) damage.now.spot ≡ Some file
        → size ≡ unwrap_or damage.now.fault (length file)) }
    ensures stays { IsTrue H.tells → Stays (H.view host.old) (H.view host.new) }
    ensures cause { DiskCause (H.faults host.old) (H.faults host.new) result }
{
    match damage.fault {
        Some(place) => Ok(place),
        None => host.size(damage.spot.area, damage.spot.name),
    }
}

/// Tells a damaged file that was found.
fn tell_damaged<H: Host>(alloc: Global, host: &mut H, damage: &Damage) -> Result<(), HostError>
    requires there { IsThere H.tells (H.view host.old) damage.now.spot }
    ensures told { OnOk result (IsTrue H.tells → (file : List ℕ)
        → bytes_at (H.view host.old) damage.now.spot ≡ Some file
        → damage.now.fault ≡ fault_of file
        → TellsMore (bytes_text damage.now.place damage.now.id file)
        (H.view host.old) (H.view host.new)) }
    ensures front { OnErr result (IsTrue H.tells → (file : List ℕ)
        → bytes_at (H.view host.old) damage.now.spot ≡ Some file
        → damage.now.fault ≡ fault_of file
        → TellsFront (bytes_text damage.now.place damage.now.id file)
        (H.view host.old) (H.view host.new)) }
    ensures only { Told H.tells H.view host.old host.new OnlyTells }
    ensures cause { TellingCause (H.faults host.old) (H.faults host.new) result }
{
    let size = match sound_size(host, damage) {
        Ok(size) => size,
        Err(error) => return Err(error),
    };
    tell_lines(alloc, host, damage)?;
    tell_bytes(host, damage.spot, 0, size)
}

/// Tells the message of an id: its line of the listing, a line for each recipient with how it
/// stands, an empty line and its content. Of a file in corrupt, or one that is no queue file, the
/// queue and the id, where it breaks the form, and its bytes before that. `false` comes where no
/// file is named by the id, and then nothing is told. No file is changed.
///
/// In memory are the lines (13,000,000 bytes at most for 50,000 recipients), the addresses of all
/// recipients and both logs; the content is told 4,096 bytes at a time.
pub fn tell_message<H: Host>(alloc: Global, host: &mut H, id: Id) -> Result<bool, HostError>
    ensures found { IfOk result (λ found. IsTrue H.tells → (b : Book)
        → Stands (H.view host.old).files b → found ≡ stands b id) }
    ensures told { OnOk result (IsTrue H.tells → (b : Book) → Stands (H.view host.old).files b
        → TellsMore (shown_text (H.view host.old).files b id)
        (H.view host.old) (H.view host.new)) }
    ensures front { OnErr result (IsTrue H.tells → (b : Book) → Stands (H.view host.old).files b
        → TellsFront (shown_text (H.view host.old).files b id)
        (H.view host.old) (H.view host.new)) }
    ensures only { Told H.tells H.view host.old host.new OnlyTells }
    ensures cause { TellingCause (H.faults host.old) (H.faults host.new) result }
{
    let sought = match find(alloc, host, id) {
        Ok(sought) => sought,
        Err(error) => return Err(error),
    };
    match sought {
        Sought::Message(found) => tell_found(alloc, host, &found)?,
        Sought::Damaged(damage) => tell_damaged(alloc, host, &damage)?,
        Sought::Nothing => return Ok(false),
    }
    Ok(true)
}
