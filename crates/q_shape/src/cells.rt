//! Texts in columns.
ghost use Rattle.std.specs.Prelude.{◌≡◌, ◌++◌, decimal, OnOk, replicate};
ghost use Rattle.q_shape.specs.Tables.{cell, right};

use q_model::NoMemory;
use std::alloc::Global;

/// How many places a number has.
pub(crate) const NUMBER: usize = 6;

/// Adds so many spaces.
fn add_spaces(text: &mut Vec<u8>, count: usize) -> Result<(), NoMemory>
    ensures { OnOk result (text.new.items ≡ text.old.items ++ replicate count 32) }
{
    for _ in 0..count {
        text.push(b' ')?;
    }
    Ok(())
}

/// Adds a text, set right in so many places; a longer one is added whole.
pub(crate) fn add_right(text: &mut Vec<u8>, places: usize, bytes: &[u8]) -> Result<(), NoMemory>
    ensures { OnOk result (text.new.items ≡ text.old.items ++ right places bytes.now) }
{
    add_spaces(text, places.saturating_sub(bytes.len()))?;
    text.extend_from_slice(bytes)?;
    Ok(())
}

/// Adds a number in its column.
pub(crate) fn add_cell(alloc: Global, text: &mut Vec<u8>, number: u128) -> Result<(), NoMemory>
    ensures { OnOk result (text.new.items ≡ text.old.items ++ cell number) }
{
    let digits = number.to_string(alloc)?;
    add_right(text, NUMBER, digits.as_bytes())
}
