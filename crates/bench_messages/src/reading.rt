//! Reading a queue file through its last recipient.
ghost use Rattle.std.specs.Prelude.{IsSome, IsTrue};

use q_host::Host;
use q_message::{read_head, read_recipients};
use q_model::{Batch, Cursor, Spot};
use std::alloc::Global;

/// How many recipients are pending; `None` where the file can't be read.
pub(crate) fn read_through<H: Host>(alloc: Global, host: &mut H, spot: Spot) -> Option<usize>
    requires { IsTrue H.tells → IsSome ((H.view host.old).files spot.area spot.name) }
{
    let head = read_head(host, spot).ok()?;
    let most = head.recipients.max(1);
    let mut batch = Batch::new(alloc, most).ok()?;
    let first = Cursor {
        position: 0,
        at: head.first_at,
    };
    read_recipients(host, spot, head.recipients, first, most, &mut batch).ok()?;
    Some(batch.len())
}
