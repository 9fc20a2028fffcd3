//! A message with its place in the order of admission.
ghost use Rattle.std.specs.Prelude.{◌≡◌};
ghost use Rattle.q_schedule.specs.Sound.{facts_of};

use crate::admitted::Admitted;
use q_keyed::HasKey;
use q_model::Id;
use q_turns::Facts;

/// A message and its place in the order of admission.
#[derive(Clone, Copy, Debug)]
pub(crate) struct Ranked {
    pub(crate) message: Admitted,
    pub(crate) rank: u64,
}

impl Ranked {
    /// What its candidates are made of.
    pub(crate) fn facts(&self) -> Facts
        ensures { result ≡ facts_of self.now }
    {
        Facts {
            arrival: self.message.arrival,
            rank: self.rank,
            unread: self.message.unread,
        }
    }
}

impl HasKey for Ranked {
    ghost use Rattle.q_model.specs.Ids.{id_eq};
    ghost use Rattle.q_model.proofs.IdLaws.{id_eq-refl, id_eq-true};

    type Key = Id;

    ghost key_of = { λ r. r.message.id };

    ghost eq = { id_eq };

    ghost hash = { λ id. id.serial };

    fn has_key(&self, key: &Id) -> bool {
        self.message.id == *key
    }

    fn hash(&self) -> u32 {
        self.message.id.serial
    }

    fn hash_of(key: &Id) -> u32 {
        key.serial
    }

    ghost is_same = { id_eq-true };

    ghost is_own = { id_eq-refl };
}
