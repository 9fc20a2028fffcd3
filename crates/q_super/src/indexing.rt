//! Where the files stand that an act takes, by their ids.
//!
//! Names in deferred begin with a moment, so the place of one id there is found only by a walk along all of
//! them. Whoever asks for several ids makes that walk once.
ghost use Rattle.std.specs.Prelude.{◌≡◌, IfOk, IsTrue};
ghost use Rattle.q_host.specs.Calls.{Stays};
ghost use Rattle.q_host.specs.Faults.{DiskCause};
ghost use Rattle.q_model.specs.Book.{Book};
ghost use Rattle.q_model.specs.FilesStand.{Stands};
ghost use Rattle.q_super.specs.FoundPlaces.{ArePlacesOf, AreSourcePlaces, Finds};

use crate::acts::Act;
use crate::standing::Standing;
use crate::taking::taken;
use q_host::{Host, HostError};
use q_model::{Id, NoMemory, Place};
use std::alloc::Global;
use std::collections::BTreeMap;

/// Where the files of ids stand.
pub(crate) type Places = BTreeMap<Id, Place>;

/// Where these files stand.
fn places_of(alloc: Global, files: &[Standing]) -> Result<Places, NoMemory>
    ensures { IfOk result (ArePlacesOf files.now) }
{
    let mut places = BTreeMap::new(alloc);
    for file in files {
        places.insert(file.id, file.place)?;
    }
    Ok(places)
}

/// Where all files stand that the act takes. In memory are their ids and places.
pub(crate) fn taken_places<H: Host>(
    alloc: Global,
    host: &mut H,
    act: Act,
) -> Result<Places, HostError>
    ensures sources { IfOk result (AreSourcePlaces act) }
    ensures finds { IfOk result (λ places. IsTrue H.tells → (b : Book)
        → Stands (H.view host.old).files b → Finds act b places) }
    ensures stays { IsTrue H.tells → Stays (H.view host.old) (H.view host.new) }
    ensures cause { DiskCause (H.faults host.old) (H.faults host.new) result }
{
    let found = taken(alloc, host, act)?;
    let places = places_of(alloc, found.as_slice())?;
    Ok(places)
}
