//! Reading a whole file.
ghost use Rattle.std.specs.Prelude.{◌≡◌, [], IfOk, IfSome, IsSome, IsTrue, length, OnOk, unwrap_or};
ghost use Rattle.q_host.specs.Calls.{Stays};
ghost use Rattle.q_host.specs.Faults.{DiskCause};

use crate::{Host, HostError};
use q_model::{Area, Name};
use std::alloc::Global;

/// How many bytes are read at once.
const PIECE: usize = 4096;

/// Reads what is left of a file of this size, of which no bytes are there yet.
fn read_on<H: Host>(
    host: &mut H,
    area: Area,
    name: Name,
    size: u64,
    bytes: &mut Vec<u8>,
) -> Result<(), HostError>
    requires there { IsTrue H.tells → IsSome ((H.view host.old).files area name) }
    requires size { IsTrue H.tells
        → IfSome ((H.view host.old).files area name) (λ file. size ≡ length file) }
    requires none { bytes.old.items ≡ [] }
    ensures bytes { OnOk result (IsTrue H.tells
        → bytes.new.items ≡ unwrap_or ((H.view host.old).files area name) []) }
    ensures stays { IsTrue H.tells → Stays (H.view host.old) (H.view host.new) }
    ensures cause { DiskCause (H.faults host.old) (H.faults host.new) result }
{
    let mut piece = [0; PIECE];
    while (bytes.len() as u64) < size {
        let count = host.read(area, name, bytes.len() as u64, &mut piece)?;
        if count == 0 {
            break;
        }
        let Ok(()) = bytes.extend_from_slice(&piece[..count]) else {
            return Err(HostError::NoMemory);
        };
    }
    Ok(())
}

/// All bytes of a file, none where it is missing. They take as much memory as the file is long.
pub fn read_file<H: Host>(
    alloc: Global,
    host: &mut H,
    area: Area,
    name: Name,
) -> Result<Vec<u8>, HostError>
    ensures bytes { IfOk result (λ bytes. IsTrue H.tells
        → bytes.items ≡ unwrap_or ((H.view host.old).files area name) []) }
    ensures stays { IsTrue H.tells → Stays (H.view host.old) (H.view host.new) }
    ensures cause { DiskCause (H.faults host.old) (H.faults host.new) result }
{
    let mut bytes = Vec::new(alloc);
    if host.has(area, name)? {
        let size = host.size(area, name)?;
        read_on(host, area, name, size, &mut bytes)?;
    }
    Ok(bytes)
}
