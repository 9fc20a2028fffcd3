//! Whether a name is that of a message's file.
ghost use Rattle.std.specs.Prelude.{◌≢◌, IsFalse, IsTrue};
ghost use Rattle.q_check.specs.FileNames.{IsFileName, IsNoFileName};
ghost use Rattle.q_model.specs.declared.spot.Area.TheVariants as areas;
ghost use Rattle.q_model.specs.SpoolFiles.{area_of};

use q_model::{Area, Name, Place, due_of, id_of};

fn is_deferred_name(name: Name) -> bool
    ensures some { IsTrue result → IsFileName areas.Deferred name }
    ensures none { IsFalse result → IsNoFileName areas.Deferred name }
{
    match due_of(name) {
        Some(_) => true,
        None => false,
    }
}

/// Whether it is one at a place of a queue that isn't deferred.
fn is_plain_name(name: Name, place: Place) -> bool
    requires { area_of place ≢ areas.Deferred }
    ensures some { IsTrue result → IsFileName (area_of place) name }
    ensures none { IsFalse result → IsNoFileName (area_of place) name }
{
    match id_of(name) {
        Some(_) => true,
        None => false,
    }
}

/// Whether a message's file has this name in the area.
pub(crate) fn is_file_name(area: Area, name: Name) -> bool
    ensures some { IsTrue result → IsFileName area name }
    ensures none { IsFalse result → IsNoFileName area name }
{
    match area {
        Area::Incoming => is_plain_name(name, Place::Incoming),
        Area::Active => is_plain_name(name, Place::Active),
        Area::Deferred => is_deferred_name(name),
        Area::Hold => is_plain_name(name, Place::Hold),
        Area::Corrupt => is_plain_name(name, Place::Corrupt),
        _ => false,
    }
}
