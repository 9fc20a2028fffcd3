//! Files of messages in the queues.
ghost use Rattle.std.specs.Prelude.{IfNone, IfSome};
ghost use Rattle.q_model.specs.SpoolFiles.{area_of};
ghost use Rattle.q_super.specs.Names.{IsNameOf, IsNoName, IsPlain};

use q_model::{Area, Id, Moment, Name, Place, due_of, id_of};

/// The last moment that a name in deferred can say. A message may be due behind the last moment that
/// a clock gives.
pub(crate) const LAST_DUE: Moment = 999_999_999_999;

/// The file of a message: whose it is, and where it stands.
#[derive(Clone, Copy, Debug, PartialEq, Eq)]
pub(crate) struct Standing {
    pub(crate) id: Id,
    pub(crate) place: Place,
}

/// The file in deferred with this name, where it is a message's.
fn deferred_standing(name: Name) -> Option<Standing>
    ensures some { IfSome result (IsNameOf Area.Deferred name) }
    ensures none { IfNone result (IsNoName Area.Deferred name) }
{
    let (due, id) = due_of(name)?;
    Some(Standing {
        id,
        place: Place::Deferred(due),
    })
}

/// The file with this name at a place of the queue, which isn't deferred.
fn plain_standing(name: Name, place: Place) -> Option<Standing>
    requires { IsPlain place }
    ensures some { IfSome result (IsNameOf (area_of place) name) }
    ensures none { IfNone result (IsNoName (area_of place) name) }
{
    let id = id_of(name)?;
    Some(Standing { id, place })
}

/// The file of a queue with this name, where it is a message's.
pub(crate) fn standing_at(area: Area, name: Name) -> Option<Standing>
    ensures some { IfSome result (IsNameOf area name) }
    ensures none { IfNone result (IsNoName area name) }
{
    match area {
        Area::Incoming => plain_standing(name, Place::Incoming),
        Area::Active => plain_standing(name, Place::Active),
        Area::Deferred => deferred_standing(name),
        Area::Hold => plain_standing(name, Place::Hold),
        Area::Corrupt => plain_standing(name, Place::Corrupt),
        _ => None,
    }
}
