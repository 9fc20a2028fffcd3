//! Where the file of an id stands.
ghost use Rattle.std.specs.Prelude.{◌≡◌, ◌≢◌, ◌↔◌, ◌<◌, ◌^◌, IfNone, IfOk, IfSome, is_some, IsTrue, true, ℕ};
ghost use Rattle.q_host.specs.Calls.{Stays};
ghost use Rattle.q_host.specs.Faults.{DiskCause};
ghost use Rattle.q_model.specs.IdTexts.{due_text, id_text, IsId};
ghost use Rattle.q_super.specs.Acts.{takes_from};
ghost use Rattle.q_super.specs.Finding.{IsDueTime, IsFoundAt, IsSource};

use crate::acts::{Act, takes_from};
use crate::standing::LAST_DUE;
use q_host::{Host, HostError};
use q_model::{Area, Id, Moment, Name, Place, due_of, id_name};
use q_scan::Scan;
use std::alloc::Global;

/// Whether a file may be named by the id: both of its numbers are at least 1.
fn names_file(id: Id) -> bool
    ensures { IsTrue result ↔ IsId id }
{
    id.generation > 0 && id.serial > 0
}

/// From when on the message of an id is due whose file in deferred has this name.
fn due_in(name: Name, id: Id) -> Option<Moment>
    ensures some { IfSome result (λ due. (due < 10 ^ 12) × (due_text due id ≡ name)) }
    ensures none { IfNone result ((due : ℕ) → due < 10 ^ 12 → IsId id → due_text due id ≢ name) }
{
    let (due, other) = due_of(name)?;
    if other != id {
        return None;
    }
    Some(due)
}

/// From when on the message of an id is due, where it stands in deferred. Its name there begins
/// with that moment, so the names are gone through.
fn due_time<H: Host>(alloc: Global, host: &mut H, id: Id) -> Result<Option<Moment>, HostError>
    requires { IsId id }
    ensures digits { IfOk result (λ o. IfSome o (λ due. due < 10 ^ 12)) }
    ensures due { IfOk result (λ o. IsTrue H.tells → IsDueTime (H.view host.old).files id o) }
    ensures stays { IsTrue H.tells → Stays (H.view host.old) (H.view host.new) }
    ensures cause { DiskCause (H.faults host.old) (H.faults host.new) result }
{
    let mut scan = Scan::new(alloc, Area::Deferred)?;
    loop {
        let Some(name) = scan.next(host, LAST_DUE)? else {
            return Ok(None);
        };
        if let Some(due) = due_in(name, id) {
            return Ok(Some(due));
        }
    }
}

/// Whether the file of an id stands in an area from which the act takes messages, and whose names are
/// ids.
fn is_in<H: Host>(host: &mut H, act: Act, area: Area, id: Id) -> Result<bool, HostError>
    ensures takes { IfOk result (λ found. found ≡ true → takes_from act area ≡ true) }
    ensures there { IfOk result (λ found. IsTrue H.tells → takes_from act area ≡ true
        → is_some ((H.view host.old).files area (id_text id)) ≡ found) }
    ensures stays { IsTrue H.tells → Stays (H.view host.old) (H.view host.new) }
    ensures cause { DiskCause (H.faults host.old) (H.faults host.new) result }
{
    if !takes_from(act, area) {
        return Ok(false);
    }
    host.has(area, id_name(id))
}

/// Where the file of an id stands from which the act takes messages. `None` where it stands at no
/// such place, or where no file is named by the id.
pub(crate) fn place_of<H: Host>(
    alloc: Global,
    host: &mut H,
    act: Act,
    id: Id,
) -> Result<Option<Place>, HostError>
    ensures source { IfOk result (λ o. IfSome o (IsSource act id)) }
    ensures found { IfOk result (λ o. IsTrue H.tells
        → IsFoundAt (H.view host.old).files act id o) }
    ensures stays { IsTrue H.tells → Stays (H.view host.old) (H.view host.new) }
    ensures cause { DiskCause (H.faults host.old) (H.faults host.new) result }
{
    if !names_file(id) {
        return Ok(None);
    }
    if is_in(host, act, Area::Incoming, id)? {
        return Ok(Some(Place::Incoming));
    }
    if is_in(host, act, Area::Hold, id)? {
        return Ok(Some(Place::Hold));
    }
    if !takes_from(act, Area::Deferred) {
        return Ok(None);
    }
    match due_time(alloc, host, id)? {
        Some(due) => Ok(Some(Place::Deferred(due))),
        None => Ok(None),
    }
}
