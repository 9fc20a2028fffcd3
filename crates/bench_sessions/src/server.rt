//! A server that accepts a message.
ghost use Rattle.std.specs.Prelude.{◌<◌, length};

use q_link::ScriptHops;
use q_model::NoMemory;

/// The link waits, and then this reply comes.
fn answers(hops: &mut ScriptHops, reply: &[u8]) -> Result<(), NoMemory>
    requires begun { 0 < length hops.old.scripts }
    requires some { 0 < length reply.now }
    ensures begun { 0 < length hops.new.scripts }
{
    hops.not_yet()?;
    hops.piece(reply)
}

/// The script of the next link.
pub(crate) fn accepts(hops: &mut ScriptHops) -> Result<(), NoMemory> {
    hops.link()?;
    answers(hops, b"220 ready\r\n")?;
    answers(hops, b"250-here\r\n250 8BITMIME\r\n")?;
    answers(hops, b"250 ok\r\n")?;
    answers(hops, b"250 ok\r\n")?;
    answers(hops, b"354 go on\r\n")?;
    answers(hops, b"250 taken\r\n")
}
