//! What the clients of a case send.
ghost use Rattle.std.specs.Prelude.{◌<◌, length};

use crate::server::Act;
use q_door::ScriptDoor;
use q_model::NoMemory;
use std::alloc::Global;

/// How many bytes of an input or of a client come at once, where a page says nothing of it.
pub(crate) const PIECE: usize = 4_096;

/// These bytes come at once.
fn come(door: &mut ScriptDoor, bytes: &[u8]) -> Result<(), NoMemory>
    requires begun { 0 < length door.old.hops.scripts }
    ensures begun { 0 < length door.new.hops.scripts }
{
    if bytes.is_empty() {
        return Ok(());
    }
    door.piece(bytes)
}

/// These bytes come so many at a time, but at least one.
fn come_in_pieces(door: &mut ScriptDoor, bytes: &[u8], size: usize) -> Result<(), NoMemory>
    requires begun { 0 < length door.old.hops.scripts }
    ensures begun { 0 < length door.new.hops.scripts }
{
    for piece in bytes.chunks(size.max(1)) {
        come(door, piece)?;
    }
    Ok(())
}

/// These bytes come one at a time, and behind each the link waits.
fn come_slowly(door: &mut ScriptDoor, bytes: &[u8]) -> Result<(), NoMemory>
    requires begun { 0 < length door.old.hops.scripts }
    ensures begun { 0 < length door.new.hops.scripts }
{
    for byte in bytes {
        door.piece(&[*byte])?;
        door.not_yet()?;
    }
    Ok(())
}

fn add_act(door: &mut ScriptDoor, act: &Act, piece: usize) -> Result<(), NoMemory>
    requires begun { 0 < length door.old.hops.scripts }
    ensures begun { 0 < length door.new.hops.scripts }
{
    match act {
        Act::Says(bytes) => come_in_pieces(door, bytes.as_slice(), piece),
        Act::Slowly(bytes) => come_slowly(door, bytes.as_slice()),
        Act::Waits => door.not_yet(),
        Act::Ends => door.end(),
        Act::ReadFails => door.fail(),
        Act::WriteFails(call) => door.write_fails(*call),
        Act::WriteWaits(call) => door.write_not_yet(*call),
    }
}

/// Writes the script of the next link.
fn add_script(door: &mut ScriptDoor, acts: &[Act], piece: usize) -> Result<(), NoMemory> {
    door.link()?;
    for act in acts {
        add_act(door, act, piece)?;
    }
    Ok(())
}

/// A door at which these clients come, in their order. What each says comes so many bytes at a time.
pub(crate) fn door_for(
    alloc: Global,
    clients: &[Vec<Act>],
    piece: usize,
) -> Result<ScriptDoor, NoMemory> {
    let mut door = ScriptDoor::new(alloc);
    for acts in clients {
        add_script(&mut door, acts.as_slice(), piece)?;
    }
    Ok(door)
}
