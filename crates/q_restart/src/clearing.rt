//! Clearing away what earlier lives left unfinished.
ghost use Rattle.std.specs.Prelude.{◌≡◌, ◌≢◌, ◌⊎◌, Bool, false, true, IsSome, IsTrue, None, OnOk};
ghost use Rattle.q_host.specs.Faults.{DiskCause};
ghost use Rattle.q_host.specs.Steps.{SameBut};
ghost use Rattle.q_host.specs.View.{Told};
ghost use Rattle.q_model.specs.declared.id.Id.{Id};
ghost use Rattle.q_model.specs.declared.spot.Area.TheVariants as areas;
ghost use Rattle.q_model.specs.IdTexts.{id_text, IsId};
ghost use Rattle.q_restart.specs.Clearings.{AreHandled, ChangesTmp, Cleans, Drops, GoesBy, IsClean, IsEmpty, IsHandled, IsLogArea, IsSettled};
ghost use Rattle.q_restart.specs.Places.{is_placed};
ghost use Rattle.q_restart.specs.Walks.{AreAllNames};

use crate::names::all_names;
use crate::places::{Places, place_of};
use q_host::{Host, HostError};
use q_model::{Area, Name, id_of};
use std::alloc::Global;

/// Removes all files in tmp, whose names these are.
fn remove_all<H: Host>(host: &mut H, names: &[Name]) -> Result<(), HostError>
    requires { IsTrue H.tells → AreAllNames ((H.view host.old).files areas.Tmp) names.now }
    ensures empty { OnOk result (IsTrue H.tells → IsEmpty (H.view host.new).files areas.Tmp) }
    ensures goes { Told H.tells H.view host.old host.new (GoesBy ChangesTmp) }
    ensures cause { DiskCause (H.faults host.old) (H.faults host.new) result }
{
    for name in names {
        host.remove(Area::Tmp, *name)?;
    }
    Ok(())
}

/// Removes all files in tmp: what earlier lives began to write.
fn empty_tmp<H: Host>(alloc: Global, host: &mut H) -> Result<(), HostError>
    ensures empty { OnOk result (IsTrue H.tells → IsEmpty (H.view host.new).files areas.Tmp) }
    ensures goes { Told H.tells H.view host.old host.new (GoesBy ChangesTmp) }
    ensures cause { DiskCause (H.faults host.old) (H.faults host.new) result }
{
    let names = all_names(alloc, host, Area::Tmp)?;
    remove_all(host, &names)
}

/// Makes a failure log sure. Nothing is claimed of deferral logs after a crash.
fn keep_log<H: Host>(host: &mut H, area: Area, name: Name) -> Result<(), HostError>
    requires { IsTrue H.tells → IsSome ((H.view host.old).files area name) }
    ensures files { IsTrue H.tells → (H.view host.new).files ≡ (H.view host.old).files }
    ensures goes { (keeps : Id → Bool) → Told H.tells H.view host.old host.new (Drops keeps) }
    ensures settled { OnOk result (IsTrue H.tells
        → area ≡ areas.Bounce → IsSettled (H.view host.new) name) }
    ensures cause { DiskCause (H.faults host.old) (H.faults host.new) result }
{
    match area {
        Area::Bounce => host.sync(area, name),
        _ => Ok(()),
    }
}

/// Removes a log whose id stands in no queue, and keeps the others.
fn handle_log<H: Host>(
    host: &mut H,
    places: &Places,
    area: Area,
    name: Name,
) -> Result<(), HostError>
    requires logs { IsLogArea area }
    requires there { IsTrue H.tells → IsSome ((H.view host.old).files area name) }
    ensures handled { OnOk result (IsTrue H.tells
        → IsHandled (is_placed places.now) (H.view host.new) area name) }
    ensures others { IsTrue H.tells
        → SameBut area name (H.view host.old).files (H.view host.new).files }
    ensures goes { Told H.tells H.view host.old host.new (Drops (is_placed places.now)) }
    ensures cause { DiskCause (H.faults host.old) (H.faults host.new) result }
{
    let Some(id) = id_of(name) else {
        return Ok(());
    };
    if place_of(places, id).is_some() {
        return keep_log(host, area, name);
    }
    host.remove(area, name)
}

/// Handles the logs of these names.
fn handle_logs<H: Host>(
    host: &mut H,
    places: &Places,
    area: Area,
    names: &[Name],
) -> Result<(), HostError>
    requires logs { IsLogArea area }
    requires listed { IsTrue H.tells → AreAllNames ((H.view host.old).files area) names.now }
    ensures handled { OnOk result (IsTrue H.tells
        → AreHandled (is_placed places.now) (H.view host.new) area) }
    ensures goes { Told H.tells H.view host.old host.new (Drops (is_placed places.now)) }
    ensures cause { DiskCause (H.faults host.old) (H.faults host.new) result }
{
    for name in names {
        handle_log(host, places, area, *name)?;
    }
    Ok(())
}

/// Removes the logs in an area whose ids stand in no queue, and makes the failure logs sure that
/// stay.
fn clear_logs<H: Host>(
    alloc: Global,
    host: &mut H,
    places: &Places,
    area: Area,
) -> Result<(), HostError>
    requires { IsLogArea area }
    ensures handled { OnOk result (IsTrue H.tells
        → AreHandled (is_placed places.now) (H.view host.new) area) }
    ensures goes { Told H.tells H.view host.old host.new (Drops (is_placed places.now)) }
    ensures cause { DiskCause (H.faults host.old) (H.faults host.new) result }
{
    let names = all_names(alloc, host, area)?;
    handle_logs(host, places, area, &names)
}

/// Empties tmp, removes the logs whose ids stand in no queue, and makes the other failure logs
/// sure.
pub(crate) fn clear<H: Host>(alloc: Global, host: &mut H, places: &Places) -> Result<(), HostError>
    ensures clean { OnOk result (IsTrue H.tells
        → IsClean (is_placed places.now) (H.view host.new)) }
    ensures goes { Told H.tells H.view host.old host.new (GoesBy (Cleans (is_placed places.now))) }
    ensures cause { DiskCause (H.faults host.old) (H.faults host.new) result }
{
    empty_tmp(alloc, host)?;
    clear_logs(alloc, host, places, Area::Bounce)?;
    clear_logs(alloc, host, places, Area::Defer)
}
