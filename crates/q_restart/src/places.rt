//! Where each id stands.
ghost use Rattle.std.specs.Prelude.{◌≡◌, [], IfOk};
ghost use Rattle.q_restart.specs.Damages.{repeated_behind};
ghost use Rattle.q_restart.specs.Places.{ArePlacesOfOnce, place_at};

use crate::standing::Standing;
use q_model::{Id, NoMemory, Place};
use std::alloc::Global;
use std::collections::BTreeMap;

/// Where each id stands.
pub(crate) type Places = BTreeMap<Id, Place>;

/// The places of a walk, and the first file whose id stands in front of it.
#[derive(Debug, Drop)]
pub(crate) struct Index {
    pub(crate) places: Places,
    pub(crate) repeated: Option<Standing>,
}

pub(crate) fn place_of(places: &Places, id: Id) -> Option<Place>
    ensures { result ≡ place_at places.now id }
{
    places.get(&id).copied()
}

/// The places of all ids of a walk, up to a file whose id stands in front of it.
pub(crate) fn index_walk(alloc: Global, walk: &[Standing]) -> Result<Index, NoMemory>
    ensures repeated { IfOk result (λ index. index.repeated ≡ repeated_behind [] walk.now) }
    ensures places { IfOk result (λ index. ArePlacesOfOnce walk.now index.repeated index.places) }
{
    let mut places = BTreeMap::new(alloc);
    for standing in walk {
        if place_of(&places, standing.id).is_some() {
            return Ok(Index {
                places,
                repeated: Some(*standing),
            });
        }
        places.insert(standing.id, standing.place)?;
    }
    Ok(Index {
        places,
        repeated: None,
    })
}
