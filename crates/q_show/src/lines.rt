//! The lines of a message, and of a damaged file.
ghost use Rattle.std.specs.List.{range_with_len};
ghost use Rattle.std.specs.Prelude.{◌≡◌, ◌≤◌, ◌++◌, flat_map, length, OnOk};
ghost use Rattle.q_listing.specs.Listings.{code_text, queue_text};
ghost use Rattle.q_model.specs.TextParts.{why_text};
ghost use Rattle.q_show.specs.Lines.{line_at};
ghost use Rattle.q_show.specs.Shown.{damage_lines, fault_line, state_line, state_text};

use crate::finding::Damage;
use crate::states::{State, States, state_of};
use q_listing::{add_code, queue_text};
use q_model::{Address, NoMemory, Receiver, Why, id_name};
use std::alloc::Global;

pub(crate) fn add(text: &mut Vec<u8>, bytes: &[u8]) -> Result<(), NoMemory>
    ensures { OnOk result (text.new.items ≡ text.old.items ++ bytes.now) }
{
    text.extend_from_slice(bytes)?;
    Ok(())
}

fn why_text(why: Why) -> &'static [u8]
    ensures { result.now ≡ why_text why }
{
    match why {
        Why::Refused => b"refused",
        Why::Expired => b"expired",
    }
}

/// Adds how a recipient stands, with the code of its failure or the last one that was noted.
fn add_state(alloc: Global, text: &mut Vec<u8>, state: State) -> Result<(), NoMemory>
    ensures { OnOk result (text.new.items ≡ text.old.items ++ state_text state) }
{
    match state {
        State::Done => add(text, b"done"),
        State::Pending(None) => add(text, b"pending"),
        State::Pending(Some(code)) => {
            add(text, b"pending")?;
            add_code(alloc, text, code)
        }
        State::Failed(why, code) => {
            add(text, why_text(why))?;
            add_code(alloc, text, code)
        }
    }
}

fn add_line(
    alloc: Global,
    text: &mut Vec<u8>,
    address: &Address,
    state: State,
) -> Result<(), NoMemory>
    ensures { OnOk result (text.new.items ≡ text.old.items ++ state_line address.now state) }
{
    add(text, b"  ")?;
    add(text, address.bytes())?;
    add(text, b" ")?;
    add_state(alloc, text, state)?;
    add(text, b"\n")
}

/// Adds the lines of the first recipients, so many; or of all that have a name.
pub(crate) fn add_recipients(
    alloc: Global,
    text: &mut Vec<u8>,
    names: &[Receiver],
    states: &States,
    count: u32,
) -> Result<(), NoMemory>
    ensures { OnOk result (count ≤ length names.now → text.new.items ≡ text.old.items
        ++ flat_map (line_at names.now states.now) (range_with_len 0 count)) }
{
    for position in 0..count {
        let Some(name) = names.get(position as usize) else {
            return Ok(());
        };
        add_line(alloc, text, &name.address, state_of(states, position))?;
    }
    Ok(())
}

fn add_fault(alloc: Global, text: &mut Vec<u8>, fault: Option<u64>) -> Result<(), NoMemory>
    ensures { OnOk result (text.new.items ≡ text.old.items ++ fault_line fault) }
{
    let Some(place) = fault else {
        return Ok(());
    };
    add(text, b"  damaged: byte ")?;
    add(text, place.to_string(alloc)?.as_bytes())?;
    add(text, b"\n")
}

/// Adds the lines of a damaged file.
pub(crate) fn add_damage(alloc: Global, text: &mut Vec<u8>, damage: &Damage) -> Result<(), NoMemory>
    ensures { OnOk result (text.new.items ≡ text.old.items
        ++ damage_lines damage.now.place damage.now.id damage.now.fault) }
{
    add(text, queue_text(damage.place))?;
    add(text, b" ")?;
    add(text, id_name(damage.id).bytes())?;
    add(text, b"\n")?;
    add_fault(alloc, text, damage.fault)?;
    add(text, b"\n")
}
