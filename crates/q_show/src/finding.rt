//! Where the file of an id stands, and what stands there.
ghost use Rattle.std.specs.Prelude.{◌≡◌, ◌≢◌, ◌↔◌, ◌<◌, ◌^◌, IfNone, IfOk, IfSome, IsTrue, List, Some, ℕ};
ghost use Rattle.q_host.specs.Calls.{Stays};
ghost use Rattle.q_host.specs.Faults.{DiskCause};
ghost use Rattle.q_model.specs.Book.{Book};
ghost use Rattle.q_model.specs.FilesStand.{Stands};
ghost use Rattle.q_model.specs.IdTexts.{due_text, IsId};
ghost use Rattle.q_model.specs.SpoolFiles.{file_at, IsPlace};
ghost use Rattle.q_show.specs.Finding.{IsDueTime, IsFoundAt, IsNamedAt, IsSought, Says, StandsStill, whole_file};

use q_books::file_spot;
use q_host::{Host, HostError};
use q_message::{MessageError, read_head};
use q_model::{Area, Id, Moment, Name, Place, Spot, due_of, id_name};
use q_scan::Scan;
use q_walk::Found;
use std::alloc::Global;

/// The greatest moment that a name in deferred can say.
const LAST_DUE: Moment = 999_999_999_999;

/// A file in corrupt, or one that is no queue file.
#[derive(Debug, Drop)]
pub(crate) struct Damage {
    pub(crate) spot: Spot,
    pub(crate) place: Place,
    pub(crate) id: Id,
    /// The offset of the first record that breaks the form; `None` where none does.
    pub(crate) fault: Option<u64>,
}

/// What stands under an id.
#[derive(Debug, Drop)]
pub(crate) enum Sought {
    Message(Found),
    Damaged(Damage),
    Nothing,
}

/// Whether a file may be named by the id: both of its numbers are at least 1.
fn names_file(id: Id) -> bool
    ensures { IsTrue result ↔ IsId id }
{
    id.generation > 0 && id.serial > 0
}

/// From when on the message of an id is due whose file in deferred has this name.
fn due_in(name: Name, id: Id) -> Option<Moment>
    ensures some { IfSome result (λ due. (due < 10 ^ 12) × (due_text due id ≡ name)) }
    ensures none { IfNone result ((due : ℕ) → due < 10 ^ 12 → IsId id → due_text due id ≢ name) }
{
    let (due, other) = due_of(name)?;
    if other != id {
        return None;
    }
    Some(due)
}

/// From when on the message of an id is due, where it stands in deferred. Its name there begins
/// with that moment, so the names are gone through.
fn due_time<H: Host>(alloc: Global, host: &mut H, id: Id) -> Result<Option<Moment>, HostError>
    requires { IsId id }
    ensures digits { IfOk result (λ o. IfSome o (λ due. due < 10 ^ 12)) }
    ensures due { IfOk result (λ o. IsTrue H.tells → IsDueTime (H.view host.old).files id o) }
    ensures stays { IsTrue H.tells → Stays (H.view host.old) (H.view host.new) }
    ensures cause { DiskCause (H.faults host.old) (H.faults host.new) result }
{
    let mut scan = Scan::new(alloc, Area::Deferred)?;
    loop {
        let Some(name) = scan.next(host, LAST_DUE)? else {
            return Ok(None);
        };
        if let Some(due) = due_in(name, id) {
            return Ok(Some(due));
        }
    }
}

/// Where the file of an id stands outside deferred: there its name is the id.
fn named_place<H: Host>(host: &mut H, id: Id) -> Result<Option<Place>, HostError>
    ensures fits { IfOk result (λ o. IfSome o IsPlace) }
    ensures named { IfOk result (λ o. IsTrue H.tells → IsNamedAt (H.view host.old).files id o) }
    ensures stays { IsTrue H.tells → Stays (H.view host.old) (H.view host.new) }
    ensures cause { DiskCause (H.faults host.old) (H.faults host.new) result }
{
    let name = id_name(id);
    if host.has(Area::Incoming, name)? {
        return Ok(Some(Place::Incoming));
    }
    if host.has(Area::Active, name)? {
        return Ok(Some(Place::Active));
    }
    if host.has(Area::Hold, name)? {
        return Ok(Some(Place::Hold));
    }
    if host.has(Area::Corrupt, name)? {
        return Ok(Some(Place::Corrupt));
    }
    Ok(None)
}

/// Where the file of an id stands.
fn place_of<H: Host>(alloc: Global, host: &mut H, id: Id) -> Result<Option<Place>, HostError>
    requires { IsId id }
    ensures fits { IfOk result (λ o. IfSome o IsPlace) }
    ensures found { IfOk result (λ o. IsTrue H.tells → IsFoundAt (H.view host.old).files id o) }
    ensures stays { IsTrue H.tells → Stays (H.view host.old) (H.view host.new) }
    ensures cause { DiskCause (H.faults host.old) (H.faults host.new) result }
{
    if let Some(place) = named_place(host, id)? {
        return Ok(Some(place));
    }
    match due_time(alloc, host, id)? {
        Some(due) => Ok(Some(Place::Deferred(due))),
        None => Ok(None),
    }
}

/// What a queue file is that was found: in corrupt it is no message.
fn sought_of(found: Found) -> Sought
    ensures { result ≡ whole_file found }
{
    match found.place {
        Place::Corrupt => Sought::Damaged(Damage {
            spot: found.spot,
            place: found.place,
            id: found.id,
            fault: None,
        }),
        _ => Sought::Message(found),
    }
}

/// What stands at this place under an id; nothing, where another process took it away since it was
/// found.
fn sought_at<H: Host>(host: &mut H, place: Place, id: Id) -> Result<Sought, HostError>
    requires { IsPlace place }
    ensures says { IfOk result (λ s. IsTrue H.tells → (bytes : List ℕ)
        → file_at (H.view host.old).files place id ≡ Some bytes → Says place id bytes s) }
    ensures still { IfOk result (StandsStill H.tells (H.view host.old)) }
    ensures stays { IsTrue H.tells → Stays (H.view host.old) (H.view host.new) }
    ensures cause { DiskCause (H.faults host.old) (H.faults host.new) result }
{
    let spot = file_spot(place, id);
    if !host.has(spot.area, spot.name)? {
        return Ok(Sought::Nothing);
    }
    match read_head(host, spot) {
        Ok(head) => Ok(sought_of(Found {
            spot,
            place,
            id,
            head,
        })),
        Err(MessageError::NotAMessage { place: fault }) => Ok(Sought::Damaged(Damage {
            spot,
            place,
            id,
            fault: Some(fault),
        })),
        Err(MessageError::Disk) => Err(HostError::Disk),
        Err(MessageError::NoMemory) => Err(HostError::NoMemory),
    }
}

/// What stands under an id. Of other messages no file is read.
pub(crate) fn find<H: Host>(alloc: Global, host: &mut H, id: Id) -> Result<Sought, HostError>
    ensures sought { IfOk result (λ s. IsTrue H.tells → (b : Book)
        → Stands (H.view host.old).files b → IsSought (H.view host.old).files b id s) }
    ensures still { IfOk result (StandsStill H.tells (H.view host.old)) }
    ensures stays { IsTrue H.tells → Stays (H.view host.old) (H.view host.new) }
    ensures cause { DiskCause (H.faults host.old) (H.faults host.new) result }
{
    if !names_file(id) {
        return Ok(Sought::Nothing);
    }
    match place_of(alloc, host, id)? {
        Some(place) => sought_at(host, place, id),
        None => Ok(Sought::Nothing),
    }
}
