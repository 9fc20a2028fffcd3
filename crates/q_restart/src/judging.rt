//! Whether a spool can be opened.
ghost use Rattle.std.specs.Prelude.{◌≡◌, ◌+◌, ◌^◌, ◌-◌, ◌<◌, find, IfErr, IfOk, IfSome, List, option_copied, true};
ghost use Rattle.q_model.specs.Texts.{is_name};
ghost use Rattle.q_restart.specs.Damages.{boot_damage, is_mispaired, walk_damage};
ghost use Rattle.q_restart.specs.Generations.{boot_generation};
ghost use Rattle.q_restart.specs.Judgements.{IsAllowed, IsIndexOf, IsRefused, mispaired_at};
ghost use Rattle.q_restart.specs.Places.{ArePlacesOf};
ghost use Rattle.q_restart.specs.Walks.{ArePlaces};
ghost use Rattle.q_restart.specs.declared.standing.Standing.{Standing};

use crate::error::OpenError;
use crate::generation::generation_of;
use crate::looking::Sight;
use crate::places::{Index, Places, place_of};
use crate::standing::Standing;
use q_books::file_spot;
use q_model::{Area, Id, Name, Place, Spot};

/// The name in boot that is one too many.
fn boot_damage(names: &[Name]) -> Option<Name>
    ensures is { result ≡ boot_damage names.now }
    ensures form { IfSome result (λ name. is_name name ≡ true) }
{
    for name in names {
        if generation_of(*name).is_none() {
            return Some(*name);
        }
    }
    names.get(1).copied()
}

/// The last generation, of which boot's names tell; 0 before the first.
fn boot_generation(names: &[Name]) -> u32
    ensures { result ≡ boot_generation names.now }
{
    match names.first() {
        Some(name) => generation_of(*name).unwrap_or(0),
        None => 0,
    }
}

/// Whether a bounce stands together with its cause, other than in incoming with the cause in
/// active.
fn is_mispaired(places: &Places, standing: Standing) -> bool
    ensures { result ≡ mispaired_at places.now standing }
{
    if !standing.id.bounce {
        return false;
    }
    let cause = Id {
        bounce: false,
        ..standing.id
    };
    match place_of(places, cause) {
        Some(Place::Active) => !matches!(standing.place, Place::Incoming),
        Some(_) => true,
        None => false,
    }
}

/// The first bounce of a walk that stands beside its cause.
fn mispaired(walk: &[Standing], places: &Places) -> Option<Standing>
    requires { ArePlacesOf walk.now places.now }
    ensures { result ≡ find (is_mispaired walk.now) walk.now }
{
    for standing in walk {
        if is_mispaired(places, *standing) {
            return Some(*standing);
        }
    }
    None
}

/// The file of a walk that is named as damaged.
fn walk_damage(walk: &[Standing], index: &Index) -> Option<Spot>
    requires places { ArePlaces walk.now }
    requires index { IsIndexOf walk.now index.now }
    ensures { result ≡ walk_damage walk.now }
{
    if let Some(standing) = index.repeated {
        return Some(file_spot(standing.place, standing.id));
    }
    let standing = mispaired(walk, &index.places)?;
    Some(file_spot(standing.place, standing.id))
}

/// The generation of a spool without a damage that has another left; 0 before the first.
pub(crate) fn judge(sight: &Sight, index: &Index) -> Result<u32, OpenError>
    requires places { ArePlaces sight.now.walk.items }
    requires index { IsIndexOf sight.now.walk.items index.now }
    ensures ok { IfOk result (IsAllowed sight.now.boot.items sight.now.walk.items) }
    ensures err { IfErr result (IsRefused sight.now.boot.items sight.now.walk.items) }
{
    if let Some(name) = boot_damage(&sight.boot) {
        return Err(OpenError::Damaged {
            area: Area::Boot,
            name,
        });
    }
    if let Some(spot) = walk_damage(&sight.walk, index) {
        return Err(OpenError::Damaged {
            area: spot.area,
            name: spot.name,
        });
    }
    let generation = boot_generation(&sight.boot);
    if generation == u32::MAX {
        return Err(OpenError::Spent);
    }
    Ok(generation)
}
