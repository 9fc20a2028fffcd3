//! Why a turn isn't carried out whole.
ghost use Rattle.std.specs.Prelude.{◌≡◌};
ghost use Rattle.q_engine.specs.Stops.{unreadable};

use q_host::HostError;
use q_model::{Area, Name, Spot};

/// Why a turn wasn't carried out whole.
#[derive(Clone, Copy, Debug, PartialEq, Eq)]
pub enum Stop {
    /// The host refused it, or memory ran out.
    Host(HostError),
    /// A queue file of this life can't be read any longer. It comes over a host alone that doesn't
    /// tell its files.
    Unreadable { area: Area, name: Name },
}

impl From<HostError> for Stop {
    ghost use Rattle.q_engine.specs.declared.stop.Stop.TheVariants as stops;

    ghost from_gives = { λ error made. made ≡ stops.Host error };

    fn from(error: HostError) -> Self {
        Stop::Host(error)
    }
}

/// The file at the spot can't be read.
pub(crate) fn unreadable(spot: Spot) -> Stop
    ensures { result ≡ unreadable spot }
{
    Stop::Unreadable {
        area: spot.area,
        name: spot.name,
    }
}
