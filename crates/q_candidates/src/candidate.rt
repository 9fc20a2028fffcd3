//! A candidate.
ghost use Rattle.std.specs.Prelude.{◌≡◌, ◌+◌, ◌*◌};
ghost use Rattle.q_candidates.specs.Candidates.{goes_first, is_better, key_of};

use q_keyed::HasKey;
use q_model::{Id, Moment, Site};
use q_rounds::{Peer, PeerKey};

/// A message at a transport that has begun no delivery there and may preempt another one, at one of
/// the sites at which rows of it wait.
#[derive(Clone, Copy, Debug)]
pub struct Candidate {
    pub id: Id,
    pub site: Site,
    /// How many deliveries it needs at the transport.
    pub need: u64,
    pub arrival: Moment,
    /// Its place in the order of admission.
    pub rank: u64,
}

/// An age and one more, as often as another one needs deliveries.
pub(crate) fn weight(age: u64, need: u64) -> u128
    ensures { result ≡ (age + 1) * need }
{
    (u128::from(age) + 1) * u128::from(need)
}

impl Candidate {
    /// What it is found by.
    pub(crate) fn key(&self) -> PeerKey
        ensures { result ≡ key_of self.now }
    {
        PeerKey {
            id: self.id,
            site: self.site,
        }
    }

    /// Whether (age + 1) / need is greater than that of the other.
    fn is_better(&self, other: &Candidate, now: Moment) -> bool
        ensures { result ≡ is_better now self.now other.now }
    {
        let own = weight(now.saturating_sub(self.arrival), other.need);
        let its = weight(now.saturating_sub(other.arrival), self.need);
        its < own
    }

    /// Whether it is better than the other, or as good and admitted before it.
    pub fn goes_first(&self, other: &Candidate, now: Moment) -> bool
        ensures { result ≡ goes_first now self.now other.now }
    {
        self.is_better(other, now) || !other.is_better(self, now) && self.rank < other.rank
    }
}

impl HasKey for Candidate {
    ghost use Rattle.q_rounds.specs.Rounds.{key_eq, key_hash};
    ghost use Rattle.q_rounds.specs.KeyLaws.{key_eq-refl, key_eq-true};
    ghost use Rattle.q_candidates.specs.Candidates.{key_of};

    type Key = PeerKey;

    ghost key_of = { key_of };

    ghost eq = { key_eq };

    ghost hash = { key_hash };

    fn has_key(&self, key: &PeerKey) -> bool {
        self.id == key.id && self.site == key.site
    }

    fn hash(&self) -> u32 {
        <Peer as HasKey>::hash_of(&self.key())
    }

    fn hash_of(key: &PeerKey) -> u32 {
        <Peer as HasKey>::hash_of(key)
    }

    ghost is_same = { key_eq-true };

    ghost is_own = { key_eq-refl };
}
