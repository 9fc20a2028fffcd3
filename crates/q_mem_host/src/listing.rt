//! Names in order.
ghost use Rattle.std.specs.Prelude.{◌≡◌, ◌≤◌, length, OnOk};
ghost use Rattle.q_host.specs.Reads.{IsListing};
ghost use Rattle.q_mem_host.specs.Data.{table};
ghost use Rattle.q_mem_host.specs.Order.{InOrder, is_past, IsCut};

use crate::placed_files::{PlacedFile, compare, number};
use q_model::{Area, Name, Names, NoMemory};

// Whether the file is behind a name of an area, or at the area's beginning or behind it.
fn is_past(placed: &PlacedFile, area: Area, after: &Option<Name>) -> bool
    ensures { result ≡ is_past area after.now placed.now }
{
    match after {
        None => number(area) <= number(placed.area),
        Some(name) => compare(placed, area, name).is_gt(),
    }
}

// The index of the first file that is past.
fn first_past(files: &[PlacedFile], area: Area, after: &Option<Name>) -> usize
    requires { InOrder files.now }
    ensures { IsCut files.now result area after.now }
{
    files.partition_point(|placed| !is_past(placed, area, after))
}

/// The 64 least names of an area after one, or all of them, in place of what stood in `out`.
pub(crate) fn list_names(
    files: &[PlacedFile],
    area: Area,
    after: Option<Name>,
    out: &mut Names,
) -> Result<(), NoMemory>
    requires { InOrder files.now }
    ensures ok { OnOk result (IsListing (table files.now area) after out.new) }
    ensures few { OnOk result (length out.new ≤ 64) }
{
    out.clear();
    let start = first_past(files, area, &after);
    let count = Names::ROOM.min(files.len() - start);
    for i in start..start + count {
        let placed = &files[i];
        if number(placed.area) != number(area) {
            return Ok(());
        }
        out.push(placed.name)?;
    }
    Ok(())
}
