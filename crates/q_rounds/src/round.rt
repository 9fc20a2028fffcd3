//! A round.
ghost use Rattle.std.specs.Prelude.{◌≡◌};
ghost use Rattle.q_rounds.specs.Jobs.{round_hash};

use q_keyed::HasKey;
use q_model::Id;

/// A message at a transport for which rows of it wait, at any of its sites.
#[derive(Clone, Copy, Debug)]
pub(crate) struct Round {
    pub(crate) id: Id,
    pub(crate) transport: usize,
    /// How many rows wait.
    pub(crate) waiting: u64,
}

/// What a round is found by.
#[derive(Clone, Copy, Debug)]
pub(crate) struct RoundKey {
    pub(crate) id: Id,
    pub(crate) transport: usize,
}

/// A prime, and the greatest number of 31 bits.
const MODULUS: u64 = 2_147_483_647;

/// A number that is taken from both.
fn round_hash(id: Id, transport: usize) -> u32
    ensures { result ≡ round_hash (record { id = id; transport = transport }) }
{
    ((u64::from(id.serial) * 31 + transport as u64 % MODULUS) % MODULUS) as u32
}

impl HasKey for Round {
    ghost use Rattle.q_rounds.specs.Jobs.{key_of_round, round_eq, round_hash};
    ghost use Rattle.q_rounds.specs.RoundLaws.{round_eq-refl, round_eq-true};

    type Key = RoundKey;

    ghost key_of = { key_of_round };

    ghost eq = { round_eq };

    ghost hash = { round_hash };

    fn has_key(&self, key: &RoundKey) -> bool {
        self.id == key.id && self.transport == key.transport
    }

    fn hash(&self) -> u32 {
        round_hash(self.id, self.transport)
    }

    fn hash_of(key: &RoundKey) -> u32 {
        round_hash(key.id, key.transport)
    }

    ghost is_same = { round_eq-true };

    ghost is_own = { round_eq-refl };
}
