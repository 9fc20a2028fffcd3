//! The lines of a table.
ghost use Rattle.std.specs.Prelude.{◌≡◌, ◌++◌, List, OnOk};
ghost use Rattle.q_shape.specs.Buckets.{IsShape};
ghost use Rattle.q_shape.specs.Counted.{AreNumbers};
ghost use Rattle.q_shape.specs.Counts.{Count};
ghost use Rattle.q_shape.specs.Tables.{bucket_cells, head_line, last_cell, limit_cells, row_line};

use crate::buckets::limit_of;
use crate::cells::{NUMBER, add_cell, add_right};
use crate::numbers::Numbers;
use crate::options::ShapeOptions;
use q_model::NoMemory;
use std::alloc::Global;

/// How many places a name has.
const NAME: usize = 24;

/// Adds the limits of all buckets but the last.
fn add_limits(alloc: Global, text: &mut Vec<u8>, options: &ShapeOptions) -> Result<(), NoMemory>
    requires { IsShape options.now }
    ensures { OnOk result (text.new.items ≡ text.old.items ++ limit_cells options.now) }
{
    for bucket in 0..options.buckets - 1 {
        add_cell(alloc, text, u128::from(limit_of(options, bucket)))?;
    }
    Ok(())
}

/// Adds the head of the last bucket: the limit before it and `+`.
fn add_last(alloc: Global, text: &mut Vec<u8>, options: &ShapeOptions) -> Result<(), NoMemory>
    requires { IsShape options.now }
    ensures { OnOk result (text.new.items ≡ text.old.items ++ last_cell options.now) }
{
    let mut head = limit_of(options, options.buckets - 2).to_string(alloc)?;
    head.push('+')?;
    add_right(text, NUMBER, head.as_bytes())
}

/// Adds the first line, which has the limits of the buckets.
pub(crate) fn add_head(
    alloc: Global,
    text: &mut Vec<u8>,
    options: &ShapeOptions,
) -> Result<(), NoMemory>
    requires { IsShape options.now }
    ensures { OnOk result (text.new.items ≡ text.old.items ++ head_line options.now) }
{
    add_right(text, NAME, b"")?;
    add_right(text, NUMBER, b"T")?;
    add_limits(alloc, text, options)?;
    add_last(alloc, text, options)?;
    text.push(b'\n')?;
    Ok(())
}

/// Adds the numbers of the buckets.
fn add_numbers(
    alloc: Global,
    text: &mut Vec<u8>,
    options: &ShapeOptions,
    numbers: &Numbers,
) -> Result<(), NoMemory>
    requires { IsShape options.now }
    ensures { OnOk result ((cs : List Count) → AreNumbers options.now numbers.now cs
        → text.new.items ≡ text.old.items ++ bucket_cells options.now cs) }
{
    for bucket in 0..options.buckets {
        add_cell(alloc, text, numbers.buckets[bucket as usize])?;
    }
    Ok(())
}

/// Adds the line of a name.
pub(crate) fn add_row(
    alloc: Global,
    text: &mut Vec<u8>,
    options: &ShapeOptions,
    name: &[u8],
    numbers: &Numbers,
) -> Result<(), NoMemory>
    requires { IsShape options.now }
    ensures { OnOk result ((cs : List Count) → AreNumbers options.now numbers.now cs
        → text.new.items ≡ text.old.items ++ row_line options.now name.now cs) }
{
    add_right(text, NAME, name)?;
    add_cell(alloc, text, numbers.total)?;
    add_numbers(alloc, text, options, numbers)?;
    text.push(b'\n')?;
    Ok(())
}
