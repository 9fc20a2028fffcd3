//! Telling the listing as JSON.
ghost use Rattle.std.specs.BTreeMap.{get};
ghost use Rattle.std.specs.Ordering.{nat_cmp};
ghost use Rattle.std.specs.Prelude.{◌≡◌, ◌++◌, ◌∷◌, [], false, flat_map, IfOk, IsTrue, List, map, OnErr, OnOk, ℕ};
ghost use Rattle.q_host.specs.Calls.{Stays};
ghost use Rattle.q_host.specs.Faults.{DiskCause};
ghost use Rattle.q_host.specs.View.{Told};
ghost use Rattle.q_listing.specs.Listings.{last_code, notes_in};
ghost use Rattle.q_model.specs.Book.{Book};
ghost use Rattle.q_model.specs.FilesStand.{Stands};
ghost use Rattle.q_model.specs.Message.{Message, pending};
ghost use Rattle.q_pending.specs.Readings.{IsPendingAhead, IsReading};
ghost use Rattle.q_telling.specs.Telling.{OnlyTells, TellingCause, TellsFront, TellsMore};
ghost use Rattle.q_listing.specs.Listings.{queue_text};
ghost use Rattle.q_model.specs.TextParts.{text_line};
ghost use Rattle.q_views.specs.JsonLines.{json_line_in, json_text, object_by, object_with, recipient_data};
ghost use Rattle.serde_json.specs.Written.{compact_text, items_have_float};
ghost use Rattle.serde_json.specs.View.{items_view, view};
ghost use Rattle.q_walk.specs.Walks.{IsAhead, IsFound};

use crate::objects::{message_value, recipient_value};
use q_host::{Host, HostError};
use q_listing::{Codes, code_of, codes_of, reader_of};
use q_model::{NoMemory, Queues, Taken};
use q_pending::Pending;
use q_telling::tell_text;
use q_walk::{Found, Walk};
use serde_json::Value;
use std::alloc::Global;

/// Adds the object of a recipient that was read.
fn add_taken(
    alloc: Global,
    objects: &mut Vec<Value>,
    codes: &Codes,
    taken: &Taken,
) -> Result<(), NoMemory>
    ensures { OnOk result (map view objects.new.items ≡ map view objects.old.items
        ++ recipient_data (get nat_cmp codes.now taken.now.position) taken.now.address ∷ []) }
{
    let code = code_of(codes, taken.position);
    let object = recipient_value(alloc, code, &taken.address)?;
    objects.push(object)?;
    Ok(())
}

/// The object of each recipient that the reader gives.
fn each_object<H: Host>(
    alloc: Global,
    host: &mut H,
    codes: &Codes,
    reader: &mut Pending,
) -> Result<Vec<Value>, HostError>
    requires reading { IsTrue H.tells → IsReading (H.view host.old).files reader.old }
    ensures objects { IfOk result (λ objects. IsTrue H.tells → (m : Message) → (positions : List ℕ)
        → IsPendingAhead (H.view host.old).files m reader.old positions
        → map view objects.items ≡ map (object_by (get nat_cmp codes.now) m) positions) }
    ensures stays { IsTrue H.tells → Stays (H.view host.old) (H.view host.new) }
    ensures cause { DiskCause (H.faults host.old) (H.faults host.new) result }
{
    let mut objects = Vec::new(alloc);
    loop {
        let Some(taken) = reader.next(host)? else {
            return Ok(objects);
        };
        add_taken(alloc, &mut objects, codes, &taken)?;
    }
}

/// The objects of the pending recipients of a message that was found, with the last code that was
/// noted of each.
fn objects_of<H: Host>(alloc: Global, host: &mut H, found: &Found) -> Result<Vec<Value>, HostError>
    ensures objects { IfOk result (λ objects. IsTrue H.tells → (m : Message)
        → IsFound (H.view host.old).files m found.now → map view objects.items
        ≡ map (object_by (last_code (notes_in (H.view host.old).files m.id)) m) (pending m)) }
    ensures stays { IsTrue H.tells → Stays (H.view host.old) (H.view host.new) }
    ensures cause { DiskCause (H.faults host.old) (H.faults host.new) result }
{
    let codes = codes_of(alloc, host, found.id)?;
    match reader_of(alloc, host, found)? {
        Some(mut reader) => each_object(alloc, host, &codes, &mut reader),
        None => Ok(Vec::new(alloc)),
    }
}

/// The line of a message that was found, with these objects of its recipients.
fn text_with(alloc: Global, found: &Found, objects: Vec<Value>) -> Result<Vec<u8>, NoMemory>
    ensures { IfOk result (λ line. items_have_float (items_view objects.items) ≡ false
        → line.items ≡ text_line (compact_text (object_with
        (queue_text found.now.place) found.now.id found.now.head.head.arrival
        found.now.head.content_len found.now.head.head.sender (map view objects.items)))) }
{
    let object = message_value(alloc, found, objects)?;
    let mut line = object.to_string(alloc)?.into_bytes();
    line.push(b'\n')?;
    Ok(line)
}

/// The line of a message that was found.
fn line_of<H: Host>(alloc: Global, host: &mut H, found: &Found) -> Result<Vec<u8>, HostError>
    ensures line { IfOk result (λ line. IsTrue H.tells → (m : Message)
        → IsFound (H.view host.old).files m found.now
        → line.items ≡ json_line_in (H.view host.old).files m) }
    ensures stays { IsTrue H.tells → Stays (H.view host.old) (H.view host.new) }
    ensures cause { DiskCause (H.faults host.old) (H.faults host.new) result }
{
    let objects = objects_of(alloc, host, found)?;
    Ok(text_with(alloc, found, objects)?)
}

/// Tells the line of a message that was found.
fn tell_line<H: Host>(alloc: Global, host: &mut H, found: &Found) -> Result<(), HostError>
    ensures told { OnOk result (IsTrue H.tells → (m : Message)
        → IsFound (H.view host.old).files m found.now
        → TellsMore (json_line_in (H.view host.old).files m) (H.view host.old) (H.view host.new)) }
    ensures front { OnErr result (IsTrue H.tells → (m : Message)
        → IsFound (H.view host.old).files m found.now
        → TellsFront (json_line_in (H.view host.old).files m) (H.view host.old) (H.view host.new)) }
    ensures only { Told H.tells H.view host.old host.new OnlyTells }
    ensures cause { TellingCause (H.faults host.old) (H.faults host.new) result }
{
    let line = match line_of(alloc, host, found) {
        Ok(line) => line,
        Err(error) => return Err(error),
    };
    tell_text(host, line.as_slice())
}

/// Tells the lines of the messages that the walk gives.
fn tell_lines<H: Host>(alloc: Global, host: &mut H, walk: &mut Walk) -> Result<(), HostError>
    ensures told { OnOk result (IsTrue H.tells → (b : Book) → (ms : List Message)
        → Stands (H.view host.old).files b → IsAhead (H.view host.old).files b walk.old ms
        → TellsMore (flat_map (json_line_in (H.view host.old).files) ms)
        (H.view host.old) (H.view host.new)) }
    ensures front { OnErr result (IsTrue H.tells → (b : Book) → (ms : List Message)
        → Stands (H.view host.old).files b → IsAhead (H.view host.old).files b walk.old ms
        → TellsFront (flat_map (json_line_in (H.view host.old).files) ms)
        (H.view host.old) (H.view host.new)) }
    ensures only { Told H.tells H.view host.old host.new OnlyTells }
    ensures cause { TellingCause (H.faults host.old) (H.faults host.new) result }
{
    loop {
        let Some(found) = walk.next(host)? else {
            return Ok(());
        };
        tell_line(alloc, host, &found)?;
    }
}

/// Tells the listing as JSON, one object a line: of the messages in incoming, active, deferred and
/// hold, each with its pending recipients. No file is changed.
///
/// Each line is told by itself. In memory are a line and the values that it is of, the deferral log of
/// one message and a code for each position in it, and what a reader of pending recipients takes. A line
/// of 50,000 recipients has 30,000,000 bytes at most.
pub fn tell_json<H: Host>(alloc: Global, host: &mut H) -> Result<(), HostError>
    ensures told { OnOk result (IsTrue H.tells → (b : Book) → Stands (H.view host.old).files b
        → TellsMore (json_text (H.view host.old).files b) (H.view host.old) (H.view host.new)) }
    ensures front { OnErr result (IsTrue H.tells → (b : Book) → Stands (H.view host.old).files b
        → TellsFront (json_text (H.view host.old).files b) (H.view host.old) (H.view host.new)) }
    ensures only { Told H.tells H.view host.old host.new OnlyTells }
    ensures cause { TellingCause (H.faults host.old) (H.faults host.new) result }
{
    let queues = Queues {
        incoming: true,
        active: true,
        deferred: true,
        hold: true,
    };
    let mut walk = Walk::new(alloc, queues)?;
    tell_lines(alloc, host, &mut walk)
}
