//! What the files of a spool show.
ghost use Rattle.std.specs.Prelude.{◌≡◌, IfOk, IsTrue, OnOk};
ghost use Rattle.q_host.specs.Calls.{Stays};
ghost use Rattle.q_host.specs.Faults.{DiskCause};
ghost use Rattle.q_host.specs.View.{Told};
ghost use Rattle.q_restart.specs.Judgements.{IsSightOf};
ghost use Rattle.q_restart.specs.Walks.{ArePlaces, AddsArea, IsWalk};

use crate::names::all_names;
use crate::standing::{Standing, add_standings};
use q_host::{Host, HostError};
use q_model::{Area, Name};
use std::alloc::Global;

/// The queues in which an id may stand, in the order in which they are gone through.
const QUEUES: [Area; 5] = [
    Area::Incoming,
    Area::Active,
    Area::Deferred,
    Area::Hold,
    Area::Corrupt,
];

/// What the files of a spool show: the names in boot, and the files of messages in the queues.
#[derive(Debug, Drop)]
pub(crate) struct Sight {
    pub(crate) boot: Vec<Name>,
    pub(crate) walk: Vec<Standing>,
}

/// Adds the files of messages of one queue.
fn walk_queue<H: Host>(
    alloc: Global,
    host: &mut H,
    area: Area,
    walk: &mut Vec<Standing>,
) -> Result<(), HostError>
    ensures places { OnOk result (ArePlaces walk.old.items → ArePlaces walk.new.items) }
    ensures adds { OnOk result (IsTrue H.tells
        → AddsArea (H.view host.old).files area walk.old.items walk.new.items) }
    ensures stays { Told H.tells H.view host.old host.new Stays }
    ensures cause { DiskCause (H.faults host.old) (H.faults host.new) result }
{
    let names = all_names(alloc, host, area)?;
    add_standings(walk, area, &names)?;
    Ok(())
}

/// The files of messages in all queues.
fn walk_queues<H: Host>(alloc: Global, host: &mut H) -> Result<Vec<Standing>, HostError>
    ensures places { IfOk result (λ walk. ArePlaces walk.items) }
    ensures walk { IfOk result (λ walk. IsTrue H.tells
        → IsWalk (H.view host.old).files walk.items) }
    ensures stays { Told H.tells H.view host.old host.new Stays }
    ensures cause { DiskCause (H.faults host.old) (H.faults host.new) result }
{
    let mut walk = Vec::new(alloc);
    for area in QUEUES {
        walk_queue(alloc, host, area, &mut walk)?;
    }
    Ok(walk)
}

/// Looks at boot and at all queues.
pub(crate) fn look<H: Host>(alloc: Global, host: &mut H) -> Result<Sight, HostError>
    ensures places { IfOk result (λ sight. ArePlaces sight.walk.items) }
    ensures shows { IfOk result (λ sight. IsTrue H.tells
        → IsSightOf (H.view host.old).files sight) }
    ensures stays { Told H.tells H.view host.old host.new Stays }
    ensures cause { DiskCause (H.faults host.old) (H.faults host.new) result }
{
    let boot = all_names(alloc, host, Area::Boot)?;
    let walk = walk_queues(alloc, host)?;
    Ok(Sight { boot, walk })
}
