//! Places of files in a spool.
ghost use Rattle.std.specs.Prelude.{◌≡◌};
ghost use Rattle.q_model.specs.Folders.{folder_name};

use crate::Name;
use std::marker::Model;

/// The folders of a spool. `Boot` has the last generation, `Conf` the two files that an operator
/// writes, `Tmp` files that aren't whole, `Bounce` the failure logs and `Defer` the deferral
/// logs; the others are queues.
#[derive(Clone, Copy, Debug, PartialEq, Eq, PartialOrd, Ord)]
pub enum Area {
    Boot,
    Conf,
    Tmp,
    Incoming,
    Active,
    Deferred,
    Hold,
    Corrupt,
    Bounce,
    Defer,
}

impl Area {
    /// The areas, each once, in their order.
    pub const ALL: [Area; 10] = [
        Area::Boot,
        Area::Conf,
        Area::Tmp,
        Area::Incoming,
        Area::Active,
        Area::Deferred,
        Area::Hold,
        Area::Corrupt,
        Area::Bounce,
        Area::Defer,
    ];

    /// The name of the area's folder. No two areas have the same.
    pub fn folder(self) -> &'static str
        ensures named { result.now ≡ folder_name self }
    {
        match self {
            Area::Boot => "boot",
            Area::Conf => "conf",
            Area::Tmp => "tmp",
            Area::Incoming => "incoming",
            Area::Active => "active",
            Area::Deferred => "deferred",
            Area::Hold => "hold",
            Area::Corrupt => "corrupt",
            Area::Bounce => "bounce",
            Area::Defer => "defer",
        }
    }
}

/// The place of a file. A contract sees it as the record of its area and its name's bytes.
#[derive(Clone, Copy, Debug, PartialEq, Eq, PartialOrd, Ord)]
pub struct Spot {
    pub area: Area,
    pub name: Name,
}

impl Model for Spot {
    ghost use Rattle.q_model.specs.Values.{Spot as SpotValue};

    ghost Value = { SpotValue };

    ghost view = { λ s. record { area = s.area; name = s.name } };

    ghost inverse = { λ v. record { area = v.area; name = v.name } };
}
