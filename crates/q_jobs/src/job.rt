//! A job.
use q_keyed::HasKey;
use q_model::Id;

/// A message at a transport, with its account of delivery slots (SCHEDULER_README).
#[derive(Clone, Copy, Debug)]
pub struct Job {
    pub id: Id,
    /// Deliveries started.
    pub starts: u64,
    /// The needs of the jobs that preempted it.
    pub charged: u64,
}

impl HasKey for Job {
    ghost use Rattle.q_model.specs.Ids.{id_eq};
    ghost use Rattle.q_model.proofs.IdLaws.{id_eq-refl, id_eq-true};

    type Key = Id;

    ghost key_of = { λ j. j.id };

    ghost eq = { id_eq };

    ghost hash = { λ id. id.serial };

    fn has_key(&self, key: &Id) -> bool {
        self.id == *key
    }

    fn hash(&self) -> u32 {
        self.id.serial
    }

    fn hash_of(key: &Id) -> u32 {
        key.serial
    }

    ghost is_same = { id_eq-true };

    ghost is_own = { id_eq-refl };
}
