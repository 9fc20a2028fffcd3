//! Deliveries as they are found by their numbers.
ghost use Rattle.std.specs.Prelude.{◌≡◌};
ghost use Rattle.q_flights.specs.Heads.{delivery_of};
ghost use Rattle.q_flights.specs.Flying.{delivery_shown};

use crate::delivery_ref::DeliveryRef;
use q_keyed::HasKey;
use q_model::{Id, Site};
use q_positions::RowRef;

/// A delivery without the positions of its row.
#[derive(Debug, Drop)]
pub(crate) struct DeliveryHead {
    pub(crate) number: u64,
    pub(crate) id: Id,
    pub(crate) site: Site,
}

impl HasKey for DeliveryHead {
    ghost use Rattle.std.proofs.lemmas.Bool.{eq-eqb, eqb-true};
    ghost use Rattle.std.specs.Prelude.{◌==◌, ◌%◌, ◌^◌, refl};

    type Key = u64;

    ghost key_of = { λ f. f.number };

    ghost eq = { λ a b. a == b };

    ghost hash = { λ n. n % 2 ^ 32 };

    fn has_key(&self, key: &u64) -> bool {
        self.number == *key
    }

    fn hash(&self) -> u32 {
        DeliveryHead::hash_of(&self.number)
    }

    fn hash_of(key: &u64) -> u32 {
        (*key % (1 << 32)) as u32
    }

    ghost is_same = { λ a b h. eqb-true a b h };

    ghost is_own = { λ a. eq-eqb a a refl };
}

impl DeliveryHead {
    pub(crate) fn transport(&self) -> u8
        ensures { result ≡ self.now.site.transport }
    {
        self.site.transport
    }

    /// The delivery of these positions.
    pub(crate) fn with<'a>(&'a self, positions: &'a [u32]) -> DeliveryRef<'a>
        ensures { delivery_shown result ≡ delivery_of self.now positions.now }
    {
        DeliveryRef {
            number: self.number,
            row: RowRef {
                id: self.id,
                site: &self.site,
                positions,
            },
        }
    }
}
