//! The peer of a job that is sent to next, and what waits for all of them.
ghost use Rattle.std.specs.Prelude.{◌≡◌, ◌+◌, ◌<◌, ◌^◌};
ghost use Rattle.std.specs.List.{list_any};
ghost use Rattle.std.specs.Option.{option_copied};
ghost use Rattle.q_rounds.specs.Rounds.{is_passed, next_in, rows_left};
ghost use Rattle.q_turns.specs.Turns.{last_for};

use crate::turns::Turns;
use q_dest::Sites;
use q_model::{Id, Site};
use q_rounds::{Peer, PeerKey};

impl Turns {
    /// The peer of the message at the transport that is sent to next: of those whose site has
    /// space the one that was sent to longest ago, before it those that never were, and among
    /// these the first that came.
    pub fn next(&self, transport: usize, id: Id, sites: &Sites) -> Option<&Peer>
        ensures { option_copied result ≡ next_in sites.now.items transport id self.now.peers }
    {
        self.peers.next_for(id, transport, sites)
    }

    /// The number of the delivery in which the message was last sent to the site, or 0.
    pub fn last(&self, id: Id, site: &Site) -> u64
        ensures { result ≡ last_for id site.now self.now.peers }
    {
        self.peers.stand_apart();
        let key = PeerKey { id, site: *site };
        let Some(number) = self.peers.find(&key) else {
            return 0;
        };
        match self.peers.get(number) {
            Some(peer) => peer.last,
            None => 0,
        }
    }

    /// How many rows of the message wait at the transport.
    pub fn rows_left(&self, id: Id, transport: usize) -> u64
        ensures value { result ≡ rows_left id transport self.now.peers }
        ensures few { result + 2 ^ 32 < 2 ^ 64 }
    {
        self.peers.rows_left(id, transport)
    }

    /// Whether the rows of a peer may be left in another order than that in which they came.
    pub fn has_passed(&self) -> bool
        ensures { result ≡ list_any is_passed self.now.peers }
    {
        self.peers.has_passed()
    }
}
