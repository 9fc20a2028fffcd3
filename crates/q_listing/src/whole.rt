//! Reading a whole file.
ghost use Rattle.std.specs.Prelude.{◌≡◌, [], IfOk, IsTrue, unwrap_or};
ghost use Rattle.q_host.specs.Calls.{Stays};
ghost use Rattle.q_host.specs.Faults.{DiskCause};

use q_host::{Host, HostError};
use q_model::{Area, Name};
use std::alloc::Global;

/// All bytes of a file, none where it is missing. They take as much memory as the file is long.
pub(crate) fn whole<H: Host>(
    alloc: Global,
    host: &mut H,
    area: Area,
    name: Name,
) -> Result<Vec<u8>, HostError>
    ensures bytes { IfOk result (λ bytes. IsTrue H.tells
        → bytes.items ≡ unwrap_or ((H.view host.old).files area name) []) }
    ensures stays { IsTrue H.tells → Stays (H.view host.old) (H.view host.new) }
    ensures cause { DiskCause (H.faults host.old) (H.faults host.new) result }
{
    if !host.has(area, name)? {
        return Ok(Vec::new(alloc));
    }
    let size = host.size(area, name)?;
    let mut bytes = vec![in alloc; 0u8; size as usize]?;
    let count = host.read(area, name, 0, bytes.as_mut_slice())?;
    bytes.truncate(count);
    Ok(bytes)
}
