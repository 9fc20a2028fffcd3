//! Where in a queue file the mark of a recipient stands.
ghost use Rattle.std.specs.Option.{option_map};
ghost use Rattle.std.specs.Prelude.{◌≡◌, ◌==◌, find, IfOk, IsTrue};
ghost use Rattle.q_host.specs.Calls.{Stays};
ghost use Rattle.q_message.specs.Causes.{ReadCause};
ghost use Rattle.q_message.specs.Names.{HasHead};
ghost use Rattle.q_message.specs.Told.{IsThere, OnNoMessage, TellsOf};
ghost use Rattle.q_files.specs.MarkPlaces.{FindsMark, IsMarkPlace};

use q_host::Host;
use q_message::{MessageError, read_recipients};
use q_model::{Batch, Cursor, FileHead, Spot};
use std::alloc::Global;

/// How many recipients are read at once.
const ROOM: u32 = 256;

/// The offset of the mark byte of a recipient in a batch.
fn offset_in(batch: &Batch, position: u32) -> Option<u64>
    ensures { result ≡ option_map (λ taken. taken.mark_at)
        (find (λ taken. taken.position == position) batch.now.items) }
{
    for i in 0..batch.len() {
        let taken = batch.get(i);
        if taken.position == position {
            return Some(taken.mark_at);
        }
    }
    None
}

/// The offset of the mark byte of the recipient at this position, in the message's file. `None`
/// where its mark is set, or where the message has no such recipient.
///
/// The head is that of the file, but for its number of marked recipients. The file is read from its
/// first recipient on, 65,536 bytes at a time. Where the host tells its files, `NotAMessage` never
/// comes.
pub fn mark_place<H: Host>(
    alloc: Global,
    host: &mut H,
    spot: Spot,
    file: &FileHead,
    position: u32,
) -> Result<Option<u64>, MessageError>
    requires there { IsThere H.tells (H.view host.old) spot }
    requires reading { TellsOf H.tells (H.view host.old) spot (λ bytes. HasHead bytes file.now) }
    ensures place { IfOk result (λ found.
        TellsOf H.tells (H.view host.old) spot (IsMarkPlace position found)) }
    // In the words of a book.
    ensures mark { IfOk result (λ found.
        IsTrue H.tells → FindsMark (H.view host.old).files spot position found) }
    ensures no_message { OnNoMessage result (λ _. IsTrue H.tells → ⊥) }
    ensures stays { IsTrue H.tells → Stays (H.view host.old) (H.view host.new) }
    ensures cause { ReadCause (H.faults host.old) (H.faults host.new) result }
{
    if position >= file.recipients {
        return Ok(None);
    }
    let mut batch = Batch::new(alloc, ROOM)?;
    let mut cursor = Cursor {
        position: 0,
        at: file.first_at,
    };
    loop {
        batch.clear();
        let next = read_recipients(host, spot, file.recipients, cursor, ROOM, &mut batch)?;
        if let Some(at) = offset_in(&batch, position) {
            return Ok(Some(at));
        }
        if next.position > position {
            return Ok(None);
        }
        cursor = next;
    }
}
