//! All names of an area.
ghost use Rattle.std.specs.Prelude.{IfOk, IsTrue};
ghost use Rattle.q_host.specs.Calls.{Stays};
ghost use Rattle.q_host.specs.Faults.{DiskCause};
ghost use Rattle.q_host.specs.View.{Told};
ghost use Rattle.q_restart.specs.Walks.{AreAllNames};

use q_host::{Host, HostError, last_of_full};
use q_model::{Area, Name, Names};
use std::alloc::Global;

/// All names of an area, in the order of their bytes.
pub(crate) fn all_names<H: Host>(
    alloc: Global,
    host: &mut H,
    area: Area,
) -> Result<Vec<Name>, HostError>
    ensures names { IfOk result (λ names. IsTrue H.tells
        → AreAllNames ((H.view host.old).files area) names.items) }
    ensures stays { Told H.tells H.view host.old host.new Stays }
    ensures cause { DiskCause (H.faults host.old) (H.faults host.new) result }
{
    let mut part = Names::new(alloc)?;
    let mut all = Vec::new(alloc);
    let mut after = None;
    loop {
        host.list_after(area, after, &mut part)?;
        all.extend_from_slice(part.as_slice())?;
        let Some(last) = last_of_full(&part) else {
            return Ok(all);
        };
        after = Some(last);
    }
}
