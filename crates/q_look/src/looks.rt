//! The three looks.
ghost use Rattle.std.specs.Prelude.{◌<◌, ◌^◌, ◌≡◌, IfOk, IsTrue, Option, Some, true};
ghost use Rattle.q_core.specs.Agrees.{Agrees, found_active, found_incoming, found_next};
ghost use Rattle.q_host.specs.Calls.{Stays};
ghost use Rattle.q_host.specs.Faults.{DiskCause};
ghost use Rattle.q_look.specs.FirstNames.{IsAfterPlace};
ghost use Rattle.q_look.specs.Forms.{IsLookedAt};
ghost use Rattle.q_model.specs.declared.rows.DeferredName.{DeferredName as PlaceName};
ghost use Rattle.q_model.specs.FilesStand.{Stands};
ghost use Rattle.q_model.specs.Ledger.{Ledger};
ghost use Rattle.q_model.specs.Orderly.{is_orderly};
ghost use Rattle.q_model.specs.Scans.{scan_next};
ghost use Rattle.q_model.specs.Settings.{World};

use crate::facts::found_at;
use crate::names::first_name;
use crate::wanted::{DueBy, EveryId};
use q_books::file_spot;
use q_core::{Core, Found};
use q_host::{Host, HostError};
use q_model::{Area, DeferredName, Moment, Name, Place, due_name};
use std::alloc::Global;

/// The least moment that has no twelve digits.
const DUE_END: Moment = 1_000_000_000_000;

/// The file of the least id in incoming, and what it says.
pub fn look_incoming<H: Host>(alloc: Global, host: &mut H) -> Result<Found, HostError>
    ensures found { IfOk result (λ found. IsTrue H.tells → (l : Ledger)
        → Stands (H.view host.old).files l.book → is_orderly l.book ≡ true
        → found ≡ found_incoming l) }
    ensures form { IfOk result IsLookedAt }
    ensures stays { IsTrue H.tells → Stays (H.view host.old) (H.view host.new) }
    ensures cause { DiskCause (H.faults host.old) (H.faults host.new) result }
{
    let Some(file) = first_name(alloc, host, Area::Incoming, None, &EveryId)? else {
        return Ok(Found::Nothing);
    };
    found_at(alloc, host, file_spot(Place::Incoming, file.id), file)
}

/// The file of the least id in active that the core doesn't have in memory, and what it says.
pub fn look_active<H: Host>(alloc: Global, host: &mut H, core: &Core) -> Result<Found, HostError>
    ensures found { IfOk result (λ found. IsTrue H.tells → (w : World) → (l : Ledger)
        → Stands (H.view host.old).files l.book → Agrees w core.now l
        → found ≡ found_active l) }
    ensures form { IfOk result IsLookedAt }
    ensures stays { IsTrue H.tells → Stays (H.view host.old) (H.view host.new) }
    ensures cause { DiskCause (H.faults host.old) (H.faults host.new) result }
{
    let Some(file) = first_name(alloc, host, Area::Active, None, core)? else {
        return Ok(Found::Nothing);
    };
    found_at(alloc, host, file_spot(Place::Active, file.id), file)
}

/// The file of the first name in deferred behind `after` whose due time is at most `until`, and
/// what it says.
fn look_behind<H: Host>(
    alloc: Global,
    host: &mut H,
    after: Option<Name>,
    until: Moment,
) -> Result<Found, HostError>
    ensures found { IfOk result (λ found. IsTrue H.tells → (l : Ledger)
        → Stands (H.view host.old).files l.book → is_orderly l.book ≡ true
        → (place : Option PlaceName) → IsAfterPlace place after
        → found ≡ found_next l (scan_next l.book (record { place = place; until = until }))) }
    ensures form { IfOk result IsLookedAt }
    ensures stays { IsTrue H.tells → Stays (H.view host.old) (H.view host.new) }
    ensures cause { DiskCause (H.faults host.old) (H.faults host.new) result }
{
    let wanted = DueBy { until };
    let Some(file) = first_name(alloc, host, Area::Deferred, after, &wanted)? else {
        return Ok(Found::Nothing);
    };
    let spot = file_spot(Place::Deferred(file.due), file.id);
    found_at(alloc, host, spot, file)
}

/// The name in deferred of a place with a due time of 12 digits.
fn name_of_place(place: DeferredName) -> Name
    requires { place.due < 10 ^ 12 }
    ensures { IsAfterPlace (Some place) (Some result) }
{
    due_name(place.due, place.id)
}

/// The file of the first name in deferred behind `after` whose due time is at most `until`, and
/// what it says. Behind None each name stands.
pub fn look_deferred<H: Host>(
    alloc: Global,
    host: &mut H,
    after: Option<DeferredName>,
    until: Moment,
) -> Result<Found, HostError>
    ensures found { IfOk result (λ found. IsTrue H.tells → (l : Ledger)
        → Stands (H.view host.old).files l.book → is_orderly l.book ≡ true
        → found ≡ found_next l (scan_next l.book (record { place = after; until = until }))) }
    ensures form { IfOk result IsLookedAt }
    ensures stays { IsTrue H.tells → Stays (H.view host.old) (H.view host.new) }
    ensures cause { DiskCause (H.faults host.old) (H.faults host.new) result }
{
    let Some(place) = after else {
        return look_behind(alloc, host, None, until);
    };
    // Behind it no name stands.
    if place.due >= DUE_END {
        return Ok(Found::Nothing);
    }
    look_behind(alloc, host, Some(name_of_place(place)), until)
}
