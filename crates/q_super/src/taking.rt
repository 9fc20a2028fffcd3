//! The files that an act takes, found by their names.
ghost use Rattle.std.specs.Prelude.{◌≡◌, IfOk, IsTrue, OnOk};
ghost use Rattle.std.specs.List.{AllByRecursion};
ghost use Rattle.q_host.specs.Calls.{Stays};
ghost use Rattle.q_host.specs.Faults.{DiskCause};
ghost use Rattle.q_model.specs.Book.{Book};
ghost use Rattle.q_model.specs.FilesStand.{Stands};
ghost use Rattle.q_super.specs.Names.{AddsNamed, AddsTaken, AreAllOf, AreSources, IsOfArea};
ghost use Rattle.q_super.specs.Standings.{taken};

use crate::acts::{Act, takes_from};
use crate::standing::{LAST_DUE, Standing, standing_at};
use q_host::{Host, HostError};
use q_model::{Area, Name, NoMemory};
use q_scan::Scan;
use std::alloc::Global;

/// Adds the file of this name in the area, where it is a message's.
fn add_named(found: &mut Vec<Standing>, area: Area, name: Name) -> Result<(), NoMemory>
    ensures { OnOk result (AddsNamed area name found.old.items found.new.items) }
{
    let Some(standing) = standing_at(area, name) else {
        return Ok(());
    };
    found.push(standing)?;
    Ok(())
}

/// The files of messages in an area, in the order of their names.
fn files_in<H: Host>(alloc: Global, host: &mut H, area: Area) -> Result<Vec<Standing>, HostError>
    ensures each { IfOk result (λ found. AllByRecursion (IsOfArea area) found.items) }
    ensures all { IfOk result (λ found. IsTrue H.tells
        → AreAllOf (H.view host.old).files area found.items) }
    ensures stays { IsTrue H.tells → Stays (H.view host.old) (H.view host.new) }
    ensures cause { DiskCause (H.faults host.old) (H.faults host.new) result }
{
    let mut scan = Scan::new(alloc, area)?;
    let mut found = Vec::new(alloc);
    loop {
        let Some(name) = scan.next(host, LAST_DUE)? else {
            return Ok(found);
        };
        add_named(&mut found, area, name)?;
    }
}

/// Adds the files of messages in an area, where the act takes from it.
fn add_taken<H: Host>(
    alloc: Global,
    host: &mut H,
    act: Act,
    area: Area,
    found: &mut Vec<Standing>,
) -> Result<(), HostError>
    ensures sources { OnOk result (AreSources act found.old.items
        → AreSources act found.new.items) }
    ensures adds { OnOk result (IsTrue H.tells
        → AddsTaken (H.view host.old).files act area found.old.items found.new.items) }
    ensures stays { IsTrue H.tells → Stays (H.view host.old) (H.view host.new) }
    ensures cause { DiskCause (H.faults host.old) (H.faults host.new) result }
{
    if !takes_from(act, area) {
        return Ok(());
    }
    let files = files_in(alloc, host, area)?;
    found.extend_from_slice(files.as_slice())?;
    Ok(())
}

/// The files that the act takes, in the order of areas and names.
pub(crate) fn taken<H: Host>(
    alloc: Global,
    host: &mut H,
    act: Act,
) -> Result<Vec<Standing>, HostError>
    ensures sources { IfOk result (λ found. AreSources act found.items) }
    ensures taken { IfOk result (λ found. IsTrue H.tells → (b : Book)
        → Stands (H.view host.old).files b → found.items ≡ taken act b) }
    ensures stays { IsTrue H.tells → Stays (H.view host.old) (H.view host.new) }
    ensures cause { DiskCause (H.faults host.old) (H.faults host.new) result }
{
    let mut found = Vec::new(alloc);
    add_taken(alloc, host, act, Area::Incoming, &mut found)?;
    add_taken(alloc, host, act, Area::Deferred, &mut found)?;
    add_taken(alloc, host, act, Area::Hold, &mut found)?;
    Ok(found)
}
