//! Taking a file away that may be missing.
ghost use Rattle.std.specs.Prelude.{◌≡◌, None, IsTrue, OnOk};
ghost use Rattle.q_host.specs.Calls.{MayRemove};
ghost use Rattle.q_host.specs.Faults.{DiskCause};
ghost use Rattle.q_host.specs.View.{Told};

use q_host::{Host, HostError};
use q_model::{Area, Name};

/// Takes a file away, where there is one.
pub(crate) fn drop_file<H: Host>(host: &mut H, area: Area, name: Name) -> Result<(), HostError>
    ensures gone { OnOk result (IsTrue H.tells → (H.view host.new).files area name ≡ None) }
    ensures change { Told H.tells H.view host.old host.new (MayRemove area name) }
    ensures cause { DiskCause (H.faults host.old) (H.faults host.new) result }
{
    if host.has(area, name)? {
        return host.remove(area, name);
    }
    Ok(())
}
