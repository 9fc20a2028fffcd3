//! A lane.
use q_keyed::HasKey;
use q_model::Site;
use q_peers::site_hash;

/// A site for which rows wait.
#[derive(Clone, Copy, Debug)]
pub(crate) struct Lane {
    pub(crate) site: Site,
}

impl HasKey for Lane {
    ghost use Rattle.q_model.proofs.IdLaws.{site_eq-refl, site_eq-true};
    ghost use Rattle.q_model.specs.Sites.{site_eq};
    ghost use Rattle.q_peers.specs.Buckets.{site_hash};

    type Key = Site;

    ghost key_of = { λ l. l.site };

    ghost eq = { site_eq };

    ghost hash = { site_hash };

    fn has_key(&self, key: &Site) -> bool {
        self.site == *key
    }

    fn hash(&self) -> u32 {
        site_hash(&self.site)
    }

    fn hash_of(key: &Site) -> u32 {
        site_hash(key)
    }

    ghost is_same = { site_eq-true };

    ghost is_own = { site_eq-refl };
}
