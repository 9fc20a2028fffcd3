//! The damage for which a life on a spool is refused. It is found by opening a copy of the spool that
//! has its names alone, which is in memory: so the spool isn't changed.
ghost use Rattle.std.specs.Prelude.{◌≡◌, [], IfOk, IfSome, IsTrue, List, OnOk, ℕ};
ghost use Rattle.q_check.specs.Copies.{AddsNames, CopiesNames, HasNoFiles};
ghost use Rattle.q_check.specs.SpoolDamages.{IsDamageBy, IsDamageIn, IsDamageOfSome};
ghost use Rattle.q_host.specs.Calls.{Stays};
ghost use Rattle.q_host.specs.Faults.{DiskCause};
ghost use Rattle.q_host.specs.Files.{with_file};
ghost use Rattle.q_restart.specs.Walks.{AreAllNames};

use crate::names::all_names;
use q_host::{Host, HostError};
use q_mem_host::MemHost;
use q_model::{Area, Name, NoMemory, Spot};
use q_restart::{OpenError, open_spool};
use std::alloc::Global;

/// The areas whose names decide whether a life can begin.
const DECISIVE: [Area; 6] = [
    Area::Boot,
    Area::Incoming,
    Area::Active,
    Area::Deferred,
    Area::Hold,
    Area::Corrupt,
];

/// Makes a file without bytes in the copy.
fn make<M: Host>(copy: &mut M, area: Area, name: Name) -> Result<(), NoMemory>
    ensures { OnOk result (IsTrue M.tells
        → (M.view copy.new).files ≡ with_file (M.view copy.old).files area name []) }
{
    match copy.create(area, name) {
        Ok(()) => Ok(()),
        // A copy in memory has no other faults.
        Err(_) => Err(NoMemory),
    }
}

/// Makes files of these names.
fn make_all<M: Host>(copy: &mut M, area: Area, names: &[Name]) -> Result<(), NoMemory>
    ensures { OnOk result (IsTrue M.tells
        → AddsNames area names.now (M.view copy.old).files (M.view copy.new).files) }
{
    for name in names {
        make(copy, area, *name)?;
    }
    Ok(())
}

/// Copies the names of an area.
fn copy_area<H: Host, M: Host>(
    alloc: Global,
    host: &mut H,
    copy: &mut M,
    area: Area,
) -> Result<(), HostError>
    ensures copied { OnOk result (IsTrue H.tells → IsTrue M.tells → (names : List (List ℕ))
        × AreAllNames ((H.view host.old).files area) names
        × AddsNames area names (M.view copy.old).files (M.view copy.new).files) }
    ensures stays { IsTrue H.tells → Stays (H.view host.old) (H.view host.new) }
    ensures cause { DiskCause (H.faults host.old) (H.faults host.new) result }
{
    let names = all_names(alloc, host, area)?;
    make_all(copy, area, names.as_slice())?;
    Ok(())
}

/// Copies the names of these areas to a copy that has no files.
fn copy_areas<H: Host, M: Host>(
    alloc: Global,
    host: &mut H,
    copy: &mut M,
    these: &[Area],
) -> Result<(), HostError>
    requires { IsTrue M.tells → HasNoFiles (M.view copy.old).files }
    ensures copied { OnOk result (IsTrue H.tells → IsTrue M.tells
        → CopiesNames these.now (H.view host.old).files (M.view copy.new).files) }
    ensures stays { IsTrue H.tells → Stays (H.view host.old) (H.view host.new) }
    ensures cause { DiskCause (H.faults host.old) (H.faults host.new) result }
{
    for area in these {
        copy_area(alloc, host, copy, *area)?;
    }
    Ok(())
}

/// What an error at opening says of the copy.
fn damage_in(error: OpenError) -> Result<Option<Spot>, NoMemory>
    ensures { IsDamageBy error result }
{
    match error {
        OpenError::Damaged { area, name } => Ok(Some(Spot { area, name })),
        OpenError::Spent => Ok(None),
        // A copy in memory has no other faults.
        OpenError::Disk | OpenError::NoMemory => Err(NoMemory),
    }
}

/// The damage of a copy, which is changed.
fn damage_of_copy<M: Host>(alloc: Global, copy: &mut M) -> Result<Option<Spot>, NoMemory>
    ensures damage { IfOk result (λ spot. IsTrue M.tells
        → IsDamageIn (M.view copy.old).files spot) }
    ensures some { IfOk result (λ spot. IfSome spot IsDamageOfSome) }
{
    match open_spool(alloc, copy) {
        Ok(_) => Ok(None),
        Err(error) => damage_in(error),
    }
}

/// The damage for which a life on the spool is refused, if there is one.
pub(crate) fn damage_of<H: Host>(alloc: Global, host: &mut H) -> Result<Option<Spot>, HostError>
    ensures damage { IfOk result (λ spot. IsTrue H.tells
        → IsDamageIn (H.view host.old).files spot) }
    // Of every host: some names are damaged so.
    ensures some { IfOk result (λ spot. IfSome spot IsDamageOfSome) }
    ensures stays { IsTrue H.tells → Stays (H.view host.old) (H.view host.new) }
    ensures cause { DiskCause (H.faults host.old) (H.faults host.new) result }
{
    let mut copy = MemHost::new(alloc);
    copy_areas(alloc, host, &mut copy, &DECISIVE)?;
    let damage = damage_of_copy(alloc, &mut copy)?;
    Ok(damage)
}
