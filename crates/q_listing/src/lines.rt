//! The lines of the listing.
ghost use Rattle.std.specs.Option.{option_map_or};
ghost use Rattle.std.specs.Prelude.{◌≡◌, ◌++◌, [], decimal, OnOk};
ghost use Rattle.q_listing.specs.Listings.{code_text, coded_line, message_line, queue_text, total_line};
ghost use Rattle.q_model.specs.Text.{sender_text, spaced};
ghost use Rattle.q_model.specs.IdTexts.{id_text};

use q_model::{Address, Id, Moment, NoMemory, Place, id_name};
use std::alloc::Global;

/// The name of a queue.
pub fn queue_text(place: Place) -> &'static [u8]
    ensures { result.now ≡ queue_text place }
{
    match place {
        Place::Incoming => b"incoming",
        Place::Active => b"active",
        Place::Deferred(_) => b"deferred",
        Place::Hold => b"hold",
        Place::Corrupt => b"corrupt",
    }
}

fn add(text: &mut Vec<u8>, bytes: &[u8]) -> Result<(), NoMemory>
    ensures { OnOk result (text.new.items ≡ text.old.items ++ bytes.now) }
{
    text.extend_from_slice(bytes)?;
    Ok(())
}

fn add_number(alloc: Global, text: &mut Vec<u8>, number: u64) -> Result<(), NoMemory>
    ensures { OnOk result (text.new.items ≡ text.old.items ++ decimal number) }
{
    let digits = number.to_string(alloc)?;
    add(text, digits.as_bytes())
}

/// Adds a space and a word.
fn add_word(text: &mut Vec<u8>, word: &[u8]) -> Result<(), NoMemory>
    ensures { OnOk result (text.new.items ≡ text.old.items ++ spaced word.now) }
{
    add(text, b" ")?;
    add(text, word)
}

/// An address, or `<>` for the null sender.
fn sender_text(sender: &Option<Address>) -> &[u8]
    ensures { result.now ≡ sender_text sender.now }
{
    match sender {
        Some(address) => address.bytes(),
        None => b"<>",
    }
}

/// Adds the line of a message: its queue, its id, the size of its content, its arrival and its
/// sender.
pub fn add_message(
    alloc: Global,
    text: &mut Vec<u8>,
    place: Place,
    id: Id,
    size: u32,
    arrival: Moment,
    sender: &Option<Address>,
) -> Result<(), NoMemory>
    ensures { OnOk result (text.new.items
        ≡ text.old.items ++ message_line (queue_text place) id size arrival sender.now) }
{
    add(text, queue_text(place))?;
    add_word(text, id_name(id).bytes())?;
    add_word(text, u64::from(size).to_string(alloc)?.as_bytes())?;
    add_word(text, arrival.to_string(alloc)?.as_bytes())?;
    add_word(text, sender_text(sender))?;
    add(text, b"\n")
}

/// Adds a code in brackets; 0 stands for no reply.
pub fn add_code(alloc: Global, text: &mut Vec<u8>, code: u16) -> Result<(), NoMemory>
    ensures { OnOk result (text.new.items ≡ text.old.items ++ code_text code) }
{
    if code == 0 {
        return add(text, b" (no reply)");
    }
    add(text, b" (")?;
    add_number(alloc, text, u64::from(code))?;
    add(text, b")")
}

/// Adds the last code that was noted of a recipient, if there is one.
fn add_last_code(alloc: Global, text: &mut Vec<u8>, code: Option<u16>) -> Result<(), NoMemory>
    ensures { OnOk result (text.new.items ≡ text.old.items ++ option_map_or code_text code []) }
{
    match code {
        Some(code) => add_code(alloc, text, code),
        None => Ok(()),
    }
}

/// Adds the line of a pending recipient, with the last code that was noted of it; 0 stands for no
/// reply.
pub(crate) fn add_recipient(
    alloc: Global,
    text: &mut Vec<u8>,
    code: Option<u16>,
    address: &Address,
) -> Result<(), NoMemory>
    ensures { OnOk result (text.new.items ≡ text.old.items ++ coded_line code address.now) }
{
    add(text, b"  ")?;
    add(text, address.bytes())?;
    add_last_code(alloc, text, code)?;
    add(text, b"\n")
}

/// Adds the last line: how many messages and pending recipients there are.
pub(crate) fn add_total(
    alloc: Global,
    text: &mut Vec<u8>,
    messages: u128,
    recipients: u128,
) -> Result<(), NoMemory>
    ensures { OnOk result (text.new.items ≡ text.old.items ++ total_line messages recipients) }
{
    add(text, b"-- ")?;
    add(text, messages.to_string(alloc)?.as_bytes())?;
    add(text, b" messages, ")?;
    add(text, recipients.to_string(alloc)?.as_bytes())?;
    add(text, b" recipients\n")
}
