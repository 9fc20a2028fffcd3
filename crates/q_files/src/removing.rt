//! Removing a message.
ghost use Rattle.std.specs.Prelude.{◌≡◌, ◌≢◌, None, IsSome, IsTrue, OnErr, OnOk};
ghost use Rattle.q_host.specs.Faults.{DiskCause};
ghost use Rattle.q_model.specs.declared.spot.Area.TheVariants as areas;
ghost use Rattle.q_model.specs.IdTexts.{id_text};
ghost use Rattle.q_books.specs.HostStands.{KeepsOtherNotes, TakesBy, TriesBy};
ghost use Rattle.q_files.specs.Changes.{RemovesMessage};
ghost use Rattle.q_files.specs.KeptBooks.{KeepsBookWithout, SameButLogs};

use crate::dropping::drop_file;
use q_host::{Host, HostError};
use q_model::{Area, Id, Spot, id_name};

/// Takes the logs of an id away, where there are any.
fn drop_logs<H: Host>(host: &mut H, id: Id) -> Result<(), HostError>
    ensures book { KeepsBookWithout id H.tells H.view host.old host.new }
    ensures bounce { OnOk result (IsTrue H.tells
        → (H.view host.new).files areas.Bounce (id_text id) ≡ None) }
    ensures defer { OnOk result (IsTrue H.tells
        → (H.view host.new).files areas.Defer (id_text id) ≡ None) }
    ensures others { IsTrue H.tells
        → SameButLogs (id_text id) (H.view host.old).files (H.view host.new).files }
    ensures cause { DiskCause (H.faults host.old) (H.faults host.new) result }
{
    let name = id_name(id);
    drop_file(host, Area::Bounce, name)?;
    drop_file(host, Area::Defer, name)
}

/// Removes the message of this id, whose file stands at the spot: first the queue file, and then
/// its logs, so that no crash leaves the message without a log that it had. A log that is left
/// after a refusal is of no message, and says nothing any more.
pub fn remove<H: Host>(host: &mut H, spot: Spot, id: Id) -> Result<(), HostError>
    requires { IsTrue H.tells → IsSome ((H.view host.old).files spot.area spot.name) }
    ensures ok { OnOk result (TakesBy (RemovesMessage spot id) H.tells H.view host.old host.new) }
    ensures err { OnErr result (TriesBy (RemovesMessage spot id) H.tells H.view host.old host.new) }

    // Its logs are gone.
    ensures bounce { OnOk result (IsTrue H.tells
        → (H.view host.new).files areas.Bounce (id_text id) ≡ None) }
    ensures defer { OnOk result (IsTrue H.tells
        → (H.view host.new).files areas.Defer (id_text id) ≡ None) }
    ensures notes { IsTrue H.tells → spot.area ≢ areas.Defer
        → KeepsOtherNotes (id_text id) (H.view host.old) (H.view host.new) }
    ensures cause { DiskCause (H.faults host.old) (H.faults host.new) result }
{
    host.remove(spot.area, spot.name)?;
    drop_logs(host, id)
}
