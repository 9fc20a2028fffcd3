//! A peer.
ghost use Rattle.std.specs.Prelude.{◌≡◌, ◌+◌, ◌<◌, ◌^◌};
ghost use Rattle.q_rounds.specs.Rounds.{gained, lost, new_peer, started};

use q_keyed::HasKey;
use q_model::{Id, Site};
use q_peers::peer_hash;

/// A message at a site for which rows of it wait.
#[derive(Clone, Copy, Debug)]
pub struct Peer {
    pub id: Id,
    pub site: Site,
    /// How many rows wait.
    pub waiting: u32,
    /// The number of the delivery in which the message was last sent to the site, or 0.
    pub last: u64,
    /// Whether the rows that are left may stand in another order than that in which they came.
    pub passed: bool,
}

/// What a peer is found by.
#[derive(Clone, Copy, Debug)]
pub struct PeerKey {
    pub id: Id,
    pub site: Site,
}

impl HasKey for Peer {
    ghost use Rattle.q_rounds.specs.Rounds.{key_eq, key_hash, key_of};
    ghost use Rattle.q_rounds.specs.KeyLaws.{key_eq-refl, key_eq-true};

    type Key = PeerKey;

    ghost key_of = { key_of };

    ghost eq = { key_eq };

    ghost hash = { key_hash };

    fn has_key(&self, key: &PeerKey) -> bool {
        self.id == key.id && self.site == key.site
    }

    fn hash(&self) -> u32 {
        peer_hash(self.id, &self.site)
    }

    fn hash_of(key: &PeerKey) -> u32 {
        peer_hash(key.id, &key.site)
    }

    ghost is_same = { key_eq-true };

    ghost is_own = { key_eq-refl };
}

impl Peer {
    /// One for which one row waits.
    pub(crate) fn new(id: Id, site: Site, last: u64) -> Peer
        ensures { result ≡ new_peer id site last }
    {
        Peer {
            id,
            site,
            waiting: 1,
            last,
            passed: false,
        }
    }

    /// One row more waits.
    pub(crate) fn gained(&self) -> Peer
        requires { self.now.waiting + 1 < 2 ^ 32 }
        ensures { result ≡ gained self.now }
    {
        Peer {
            id: self.id,
            site: self.site,
            waiting: self.waiting + 1,
            last: self.last,
            passed: self.passed,
        }
    }

    /// One row less waits.
    pub(crate) fn lost(&self) -> Peer
        ensures { result ≡ lost self.now }
    {
        Peer {
            id: self.id,
            site: self.site,
            waiting: self.waiting.saturating_sub(1),
            last: self.last,
            passed: self.passed || self.last == 0,
        }
    }

    /// A delivery of this number is the last.
    pub(crate) fn started(&self, last: u64) -> Peer
        ensures { result ≡ started last self.now }
    {
        Peer {
            id: self.id,
            site: self.site,
            waiting: self.waiting,
            last,
            passed: false,
        }
    }
}
