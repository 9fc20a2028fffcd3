//! A site that is suspended.
use q_keyed::HasKey;
use q_model::{Moment, Site};
use q_peers::site_hash;

/// A site, and the moment at which it is resumed.
#[derive(Clone, Copy, Debug)]
pub struct Suspension {
    pub site: Site,
    pub until: Moment,
}

impl HasKey for Suspension {
    ghost use Rattle.q_model.proofs.IdLaws.{site_eq-refl, site_eq-true};
    ghost use Rattle.q_model.specs.Sites.{site_eq};
    ghost use Rattle.q_peers.specs.Buckets.{site_hash};

    type Key = Site;

    ghost key_of = { λ s. s.site };

    ghost eq = { site_eq };

    ghost hash = { site_hash };

    fn has_key(&self, key: &Site) -> bool {
        self.site == *key
    }

    fn hash(&self) -> u32 {
        site_hash(&self.site)
    }

    fn hash_of(key: &Site) -> u32 {
        site_hash(key)
    }

    ghost is_same = { site_eq-true };

    ghost is_own = { site_eq-refl };
}
