//! The failure log of a message, read from a host.
ghost use Rattle.std.specs.Prelude.{◌≡◌, IfOk, IsTrue};
ghost use Rattle.q_host.specs.Calls.{Stays};
ghost use Rattle.q_host.specs.Faults.{DiskCause};
ghost use Rattle.q_model.specs.SpoolFiles.{logged_in};

use crate::reading::records;
use q_host::{Host, HostError, read_file};
use q_model::{Area, Id, Records, id_name};
use std::alloc::Global;

/// The records of the failure log of an id; none, where there is no log.
pub fn log_of<H: Host>(alloc: Global, host: &mut H, id: Id) -> Result<Records, HostError>
    ensures records { IfOk result (λ records. IsTrue H.tells
        → records ≡ logged_in (H.view host.old).files id) }
    ensures stays { IsTrue H.tells → Stays (H.view host.old) (H.view host.new) }
    ensures cause { DiskCause (H.faults host.old) (H.faults host.new) result }
{
    let bytes = read_file(alloc, host, Area::Bounce, id_name(id))?;
    Ok(records(alloc, bytes.as_slice())?)
}
