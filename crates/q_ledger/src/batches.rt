//! What a load reads, and how it groups recipients for delivery.
ghost use Rattle.std.specs.Prelude.{◌≡◌, ◌<◌, ◌++◌, [], ◌∷◌, IfOk, length, OnOk, position};
ghost use Rattle.std.specs.Option.{option_copied};
ghost use Rattle.q_model.specs.Batches.{join_rows, load_end, load_rows};
ghost use Rattle.q_ledger.specs.Grouping.{has_space, HasJoined, joined, left_behind, pending_address, row_of_one, with_pending};
ghost use Rattle.q_ledger.specs.Worlds.{world_of};

use crate::ids::same_site;
use crate::message::Message;
use crate::world::World;
use q_model::{Address, Id, NoMemory, Positions, Row, Site};
use std::alloc::Global;

/// How many positions are still to be read behind this one, of so many.
fn left_behind(message: &Message, position: usize, left: u64) -> u64
    ensures { result ≡ left_behind message.now position left }
{
    if message.is_pending(position) {
        left.saturating_sub(1)
    } else {
        left
    }
}

/// The place just behind the last of so many pending positions from this one on, or the number of
/// recipients where there are fewer. None asked for is as if one were.
pub(crate) fn load_end(message: &Message, from: usize, free: u64) -> usize
    ensures { result ≡ load_end message.now from free }
{
    let mut left = free.max(1);
    for position in from..message.count() {
        left = left_behind(message, position, left);
        if left == 0 {
            return position + 1;
        }
    }
    message.count()
}

fn has_space(row: &Row, site: &Site, limit: u32) -> bool
    ensures { result ≡ has_space limit site.now row.now }
{
    same_site(&row.site, site) && row.positions.len() < limit as usize
}

fn row_for(rows: &[Row], site: &Site, limit: u32) -> Option<usize>
    ensures { result ≡ position (has_space limit site.now) rows.now }
{
    rows.iter().position(|row| has_space(row, site, limit))
}

/// A row of one position.
fn row_of(alloc: Global, id: Id, site: Site, position: u32) -> Result<Row, NoMemory>
    ensures { IfOk result (λ r. r ≡ row_of_one id site position) }
{
    let mut positions = Positions::new(alloc);
    positions.push(position)?;
    Ok(Row {
        id,
        site,
        positions,
    })
}

fn add_position(rows: &mut Vec<Row>, place: usize, position: u32) -> Result<(), NoMemory>
    requires { place < length rows.old.items }
    ensures { OnOk result (HasJoined place position rows.old.items rows.new.items) }
{
    let row = &mut rows[place];
    row.positions.push(position)?;
    Ok(())
}

fn add_row(
    alloc: Global,
    rows: &mut Vec<Row>,
    id: Id,
    site: &Site,
    position: u32,
) -> Result<(), NoMemory>
    ensures { OnOk result (rows.new.items ≡ rows.old.items ++ row_of_one id site.now position ∷ []) }
{
    let row = row_of(alloc, id, *site, position)?;
    rows.push(row)?;
    Ok(())
}

/// The position joins the row of its site that isn't full, or begins one.
fn join_row(
    alloc: Global,
    rows: &mut Vec<Row>,
    limit: u32,
    id: Id,
    site: &Site,
    position: u32,
) -> Result<(), NoMemory>
    ensures { OnOk result (rows.new.items ≡ join_rows limit id site.now position rows.old.items) }
{
    if let Some(place) = row_for(rows, site, limit) {
        add_position(rows, place, position)?;
        return Ok(());
    }
    add_row(alloc, rows, id, site, position)?;
    Ok(())
}

/// The address of a position, where it is pending.
fn pending_address(message: &Message, position: usize) -> Option<&Address>
    ensures { option_copied result ≡ pending_address message.now position }
{
    if message.is_pending(position) {
        message.address(position)
    } else {
        None
    }
}

/// A position joins the rows, by its address.
fn join_address(
    alloc: Global,
    world: &World,
    rows: &mut Vec<Row>,
    id: Id,
    address: &Address,
    position: u32,
) -> Result<(), NoMemory>
    ensures { OnOk result (rows.new.items ≡ joined (world_of world.now) id address.now position
        rows.old.items) }
{
    let limit = world.params.default_destination_recipient_limit;
    let site = world.table.route(address);
    join_row(alloc, rows, limit, id, &site, position)?;
    Ok(())
}

/// A position joins the rows, where it is pending.
fn join_pending(
    alloc: Global,
    world: &World,
    message: &Message,
    rows: &mut Vec<Row>,
    position: u32,
) -> Result<(), NoMemory>
    ensures { OnOk result (rows.new.items
        ≡ with_pending (world_of world.now) message.now position rows.old.items) }
{
    match pending_address(message, position as usize) {
        Some(address) => {
            join_address(alloc, world, rows, message.id, address, position)?;
            Ok(())
        }
        None => Ok(()),
    }
}

/// The rows that a load makes.
pub(crate) fn load_rows(
    alloc: Global,
    world: &World,
    message: &Message,
    from: u32,
    to: u32,
) -> Result<Vec<Row>, NoMemory>
    ensures { IfOk result (λ rows. rows.items
        ≡ load_rows (world_of world.now) message.now from to) }
{
    let mut rows = Vec::new(alloc);
    for position in from..to {
        join_pending(alloc, world, message, &mut rows, position)?;
    }
    Ok(rows)
}
