//! Files of messages in the queues.
ghost use Rattle.std.specs.Prelude.{◌≡◌, ◌++◌, IfNone, IfSome, OnOk};
ghost use Rattle.q_restart.specs.Walks.{AddsStandings, IsNoStanding, IsPlain, IsStandingAt};
ghost use Rattle.q_model.specs.SpoolFiles.{area_of};

use q_model::{Area, Id, Name, NoMemory, Place, due_of, id_of};

/// The file of a message: whose it is, and where it stands.
#[derive(Clone, Copy, Debug)]
pub(crate) struct Standing {
    pub(crate) id: Id,
    pub(crate) place: Place,
}

/// The file in deferred with this name, where it is a message's.
fn deferred_standing(name: Name) -> Option<Standing>
    ensures some { IfSome result (IsStandingAt Area.Deferred name) }
    ensures none { IfNone result (IsNoStanding Area.Deferred name) }
{
    let (due, id) = due_of(name)?;
    Some(Standing {
        id,
        place: Place::Deferred(due),
    })
}

/// The file with this name at a place of the queue, which isn't deferred.
fn plain_standing(name: Name, place: Place) -> Option<Standing>
    requires { IsPlain place }
    ensures some { IfSome result (IsStandingAt (area_of place) name) }
    ensures none { IfNone result (IsNoStanding (area_of place) name) }
{
    let id = id_of(name)?;
    Some(Standing { id, place })
}

/// The file of a queue with this name, where it is a message's.
fn standing_at(area: Area, name: Name) -> Option<Standing>
    ensures some { IfSome result (IsStandingAt area name) }
    ensures none { IfNone result (IsNoStanding area name) }
{
    match area {
        Area::Incoming => plain_standing(name, Place::Incoming),
        Area::Active => plain_standing(name, Place::Active),
        Area::Deferred => deferred_standing(name),
        Area::Hold => plain_standing(name, Place::Hold),
        Area::Corrupt => plain_standing(name, Place::Corrupt),
        _ => None,
    }
}

/// Adds the files of messages among these names of an area, in their order.
pub(crate) fn add_standings(
    walk: &mut Vec<Standing>,
    area: Area,
    names: &[Name],
) -> Result<(), NoMemory>
    ensures { OnOk result (AddsStandings area names.now walk.old.items walk.new.items) }
{
    for name in names {
        if let Some(standing) = standing_at(area, *name) {
            walk.push(standing)?;
        }
    }
    Ok(())
}
