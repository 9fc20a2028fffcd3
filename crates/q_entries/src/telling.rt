//! Telling the line of an entry.
ghost use Rattle.std.specs.Prelude.{◌≡◌, IsErrOf, IsTrue, OnOk};
ghost use Rattle.q_transport.specs.Routing.{table_of};
ghost use Rattle.q_host.specs.Faults.{TellCause};
ghost use Rattle.q_host.specs.View.{Told};
ghost use Rattle.q_entries.specs.Entries.{GivesUpLine, TellsLine};

use q_host::{Host, HostError};
use q_model::Entry;
use q_trace::entry_text;
use q_transport::Table;
use std::alloc::Global;

/// Tells the line of an entry that changes nothing on the disk, or whose change is there. Memory
/// for the text is asked for before anything of it is told.
pub fn tell<H: Host>(
    alloc: Global,
    host: &mut H,
    table: &Table,
    entry: &Entry,
) -> Result<(), HostError>
    ensures ok { OnOk result (Told H.tells H.view host.old host.new
        (TellsLine (table_of table.now) entry.now)) }
    ensures err { (error : HostError) → IsErrOf result error →
        Told H.tells H.view host.old host.new
        (GivesUpLine (table_of table.now) entry.now error) }
    // No file changes, whatever it answers.
    ensures files { IsTrue H.tells → (H.view host.new).files ≡ (H.view host.old).files }
    ensures cause { TellCause (H.faults host.old) (H.faults host.new) result }
{
    let Ok(text) = entry_text(alloc, entry, table) else {
        return Err(HostError::NoMemory);
    };
    host.tell(text.as_slice())
}
