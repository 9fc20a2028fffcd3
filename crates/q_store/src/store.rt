//! Storing a file by way of tmp.
ghost use Rattle.std.specs.Prelude.{◌≡◌, ◌≢◌, [], Some, IsTrue, OnOk, OnErr};
ghost use Rattle.q_host.specs.View.{Goes, now, Told};
ghost use Rattle.q_host.specs.Faults.{DiskCause};
ghost use Rattle.q_model.specs.declared.spot.Area.TheVariants.{Tmp};
ghost use Rattle.q_store.specs.Stores.{Holds, IsPut, LeavesWhole, MayGo, MayHold, OneFile};

use q_host::{Host, HostError};
use q_model::{Area, Name, Spot};

/// How many bytes are written at once.
const PIECE: usize = 65_536;

/// Writes bytes to an empty file, in pieces.
fn write_pieces<H: Host>(
    host: &mut H,
    area: Area,
    name: Name,
    bytes: &[u8],
) -> Result<(), HostError>
    requires { IsTrue H.tells → (H.view host.old).files area name ≡ Some [] }
    ensures files { OnOk result (Told H.tells H.view host.old host.new (IsPut area name bytes.now)) }
    ensures reads { IsTrue H.tells → OneFile area name (now (H.view host.old)) (now (H.view host.new)) }
    ensures goes { Told H.tells H.view host.old host.new (Goes (OneFile area name) (OneFile area name)) }
    ensures cause { DiskCause (H.faults host.old) (H.faults host.new) result }
{
    let mut at = 0;
    while at < bytes.len() {
        let left = bytes.len() - at;
        let piece = if left < PIECE { left } else { PIECE };
        host.write_at(area, name, at as u64, &bytes[at..at + piece])?;
        at += piece;
    }
    Ok(())
}

/// The file is written in tmp and synced before it is renamed, so that no crash leaves a part of
/// it at its place.
fn store_whole<H: Host>(
    host: &mut H,
    tmp: Name,
    area: Area,
    name: Name,
    bytes: &[u8],
) -> Result<(), HostError>
    requires { area ≢ Tmp }
    ensures ok { OnOk result (Told H.tells H.view host.old host.new (Holds tmp area name bytes.now)) }
    ensures err { OnErr result (Told H.tells H.view host.old host.new (MayHold tmp area name bytes.now)) }
    ensures goes { Told H.tells H.view host.old host.new (MayGo tmp area name bytes.now) }
    ensures cause { DiskCause (H.faults host.old) (H.faults host.new) result }
{
    host.create(Area::Tmp, tmp)?;
    write_pieces(host, Area::Tmp, tmp, bytes)?;
    host.sync(Area::Tmp, tmp)?;
    host.rename(Area::Tmp, tmp, area, name)?;
    Ok(())
}

/// Stores bytes as a file at a place outside tmp, by way of a file in tmp that is given a name of
/// its own. A file at the place, or of that name in tmp, is replaced; nothing else changes, in tmp
/// neither. It is an error to call it for a place in tmp.
pub fn store_file<H: Host>(
    host: &mut H,
    tmp: Name,
    spot: Spot,
    bytes: &[u8],
) -> Result<(), HostError>
    requires { spot.area ≢ Tmp }
    // After Ok reads and every crash give the file whole, and all but `tmp` in tmp as before.
    ensures ok { OnOk result (Told H.tells H.view host.old host.new (Holds tmp spot.area spot.name bytes.now)) }

    // After a refusal reads and crashes alike give the file, or neither does.
    ensures err { OnErr result (Told H.tells H.view host.old host.new (MayHold tmp spot.area spot.name bytes.now)) }

    // A crash at any moment of the call leaves the file whole, or what a crash might have left before.
    ensures any_moment { Told H.tells H.view host.old host.new (LeavesWhole tmp spot.area spot.name bytes.now) }
    ensures cause { DiskCause (H.faults host.old) (H.faults host.new) result }
{
    store_whole(host, tmp, spot.area, spot.name, bytes)
}
