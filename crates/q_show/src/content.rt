//! Telling bytes of a file.
ghost use Rattle.std.specs.Prelude.{◌≡◌, ◌+◌, ◌<◌, ◌^◌, drop, IsTrue, List, OnErr, OnOk, Some, take, ℕ};
ghost use Rattle.q_host.specs.View.{Told};
ghost use Rattle.q_message.specs.Told.{bytes_at, IsThere};
ghost use Rattle.q_telling.specs.Telling.{OnlyTells, TellingCause, TellsFront, TellsMore};

use q_host::{Host, HostError};
use q_model::Spot;
use q_telling::tell_text;

/// How many bytes are read at once.
const PIECE: usize = 4096;

/// Tells so many bytes of a file from an offset on, or those that it has.
pub(crate) fn tell_bytes<H: Host>(
    host: &mut H,
    spot: Spot,
    at: u64,
    size: u64,
) -> Result<(), HostError>
    requires there { IsThere H.tells (H.view host.old) spot }
    ensures told { OnOk result (IsTrue H.tells → at + size < 2 ^ 64 → (file : List ℕ)
        → bytes_at (H.view host.old) spot ≡ Some file
        → TellsMore (take size (drop at file)) (H.view host.old) (H.view host.new)) }
    ensures front { OnErr result (IsTrue H.tells → at + size < 2 ^ 64 → (file : List ℕ)
        → bytes_at (H.view host.old) spot ≡ Some file
        → TellsFront (take size (drop at file)) (H.view host.old) (H.view host.new)) }
    ensures only { Told H.tells H.view host.old host.new OnlyTells }
    ensures cause { TellingCause (H.faults host.old) (H.faults host.new) result }
{
    let mut piece = [0; PIECE];
    let mut done = 0;
    while done < size {
        let place = at.saturating_add(done);
        let count = host.read(spot.area, spot.name, place, &mut piece)?;
        if count == 0 {
            break;
        }
        let more = (size - done).min(count as u64);
        tell_text(host, &piece[..more as usize])?;
        done += more;
    }
    Ok(())
}
