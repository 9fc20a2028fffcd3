//! Moving a message from one queue to another.
ghost use Rattle.std.specs.Prelude.{◌≡◌, ◌≢◌, false, IsSome, IsTrue, OnErr, OnOk};
ghost use Rattle.q_model.specs.declared.spot.Area.TheVariants as areas;
ghost use Rattle.q_host.specs.Faults.{DiskCause};
ghost use Rattle.q_host.specs.Files.{same_place};
ghost use Rattle.q_books.specs.HostStands.{KeepsNotes, TakesBy, TriesBy};
ghost use Rattle.q_files.specs.Changes.{MovesMessage, PutsAside};

use q_host::{Host, HostError};
use q_model::Spot;

/// Moves the file of a message to another queue, or to another due time in deferred, by one rename.
///
/// A damaged file, which is no queue file, may move to corrupt in the same way. The two spots are
/// of one id and differ.
pub fn move_to<H: Host>(host: &mut H, from: Spot, to: Spot) -> Result<(), HostError>
    requires there { IsTrue H.tells → IsSome ((H.view host.old).files from.area from.name) }
    requires differ { IsTrue H.tells → same_place from.area from.name to.area to.name ≡ false }
    // A message moved, or after a refusal it moved or stayed.
    ensures ok { OnOk result (TakesBy (MovesMessage from to) H.tells H.view host.old host.new) }
    ensures err { OnErr result (TriesBy (MovesMessage from to) H.tells H.view host.old host.new) }

    // The same of a damaged file that moves to corrupt.
    ensures aside { OnOk result (TakesBy (PutsAside from to) H.tells H.view host.old host.new) }
    ensures aside_err { OnErr result
        (TriesBy (PutsAside from to) H.tells H.view host.old host.new) }
    ensures notes { IsTrue H.tells → from.area ≢ areas.Defer → to.area ≢ areas.Defer
        → KeepsNotes (H.view host.old) (H.view host.new) }
    ensures cause { DiskCause (H.faults host.old) (H.faults host.new) result }
{
    host.rename(from.area, from.name, to.area, to.name)
}
