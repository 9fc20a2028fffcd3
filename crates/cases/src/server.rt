//! What the servers of a case say.
ghost use Rattle.std.specs.Prelude.{◌<◌, length};

use q_link::ScriptHops;
use q_model::NoMemory;
use std::alloc::Global;

/// What comes over a link next.
#[derive(Drop)]
pub(crate) enum Act {
    /// These bytes come at once.
    Says(Vec<u8>),
    /// These bytes come, one at a time, and behind each the link waits.
    Slowly(Vec<u8>),
    /// A read waits.
    Waits,
    /// The link ends.
    Ends,
    /// A read fails.
    ReadFails,
    /// The write of this number fails, or waits.
    WriteFails(u64),
    WriteWaits(u64),
}

fn come_slowly(hops: &mut ScriptHops, bytes: &[u8]) -> Result<(), NoMemory>
    requires begun { 0 < length hops.old.scripts }
    ensures begun { 0 < length hops.new.scripts }
{
    for byte in bytes {
        hops.piece(&[*byte])?;
        hops.not_yet()?;
    }
    Ok(())
}

fn come(hops: &mut ScriptHops, bytes: &[u8]) -> Result<(), NoMemory>
    requires begun { 0 < length hops.old.scripts }
    ensures begun { 0 < length hops.new.scripts }
{
    if bytes.is_empty() {
        return Ok(());
    }
    hops.piece(bytes)
}

fn add_act(hops: &mut ScriptHops, act: &Act) -> Result<(), NoMemory>
    requires begun { 0 < length hops.old.scripts }
    ensures begun { 0 < length hops.new.scripts }
{
    match act {
        Act::Says(bytes) => come(hops, bytes.as_slice()),
        Act::Slowly(bytes) => come_slowly(hops, bytes.as_slice()),
        Act::Waits => hops.not_yet(),
        Act::Ends => hops.end(),
        Act::ReadFails => hops.fail(),
        Act::WriteFails(call) => hops.write_fails(*call),
        Act::WriteWaits(call) => hops.write_not_yet(*call),
    }
}

/// Writes the script of the next link.
fn add_script(hops: &mut ScriptHops, acts: &[Act]) -> Result<(), NoMemory> {
    hops.link()?;
    for act in acts {
        add_act(hops, act)?;
    }
    Ok(())
}

/// Hops whose links lead to these servers, in their order.
pub(crate) fn hops_to(alloc: Global, servers: &[Vec<Act>]) -> Result<ScriptHops, NoMemory> {
    let mut hops = ScriptHops::new(alloc);
    for acts in servers {
        add_script(&mut hops, acts.as_slice())?;
    }
    Ok(hops)
}
