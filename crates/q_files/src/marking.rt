//! Marks of recipients that are done.
ghost use Rattle.std.specs.Prelude.{◌≢◌, ◌≤◌, length, IsSome, IsTrue, OnErr, OnOk};
ghost use Rattle.std.specs.Option.{IsSomeAnd};
ghost use Rattle.q_model.specs.declared.spot.Area.TheVariants as areas;
ghost use Rattle.q_host.specs.Faults.{DiskCause};
ghost use Rattle.q_books.specs.HostStands.{KeepsNotes, TakesBy, TriesBy};
ghost use Rattle.q_files.specs.Changes.{MarksRecipient, SyncsMarks};

use q_host::{Host, HostError};
use q_model::Spot;

/// The mark byte of a recipient that is done.
const DONE: &[u8] = b"D";

/// Marks a recipient as done, by one byte at this offset of its message's file. A crash may lose
/// the mark until it is synced, and nothing else.
pub fn mark<H: Host>(host: &mut H, spot: Spot, mark_at: u64) -> Result<(), HostError>
    requires { IsTrue H.tells → IsSomeAnd ((H.view host.old).files spot.area spot.name)
        (λ file. mark_at ≤ length file) }
    ensures ok { OnOk result
        (TakesBy (MarksRecipient spot mark_at) H.tells H.view host.old host.new) }
    ensures err { OnErr result
        (TriesBy (MarksRecipient spot mark_at) H.tells H.view host.old host.new) }
    ensures notes { IsTrue H.tells → spot.area ≢ areas.Defer
        → KeepsNotes (H.view host.old) (H.view host.new) }
    ensures cause { DiskCause (H.faults host.old) (H.faults host.new) result }
{
    host.write_at(spot.area, spot.name, mark_at, DONE)
}

/// Makes the marks of a message outlive every crash.
pub fn sync_marks<H: Host>(host: &mut H, spot: Spot) -> Result<(), HostError>
    requires { IsTrue H.tells → IsSome ((H.view host.old).files spot.area spot.name) }
    ensures ok { OnOk result (TakesBy (SyncsMarks spot) H.tells H.view host.old host.new) }
    ensures err { OnErr result (TriesBy (SyncsMarks spot) H.tells H.view host.old host.new) }
    ensures notes { IsTrue H.tells → KeepsNotes (H.view host.old) (H.view host.new) }
    ensures cause { DiskCause (H.faults host.old) (H.faults host.new) result }
{
    host.sync(spot.area, spot.name)
}
