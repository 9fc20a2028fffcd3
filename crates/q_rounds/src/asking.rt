//! The peer that is sent to next, and what waits.
ghost use Rattle.std.specs.Prelude.{◌≡◌, ◌<◌, ◌+◌, ◌^◌};
ghost use Rattle.std.specs.List.{list_any};
ghost use Rattle.std.specs.Option.{option_copied};
ghost use Rattle.q_keyed.specs.Numbered.{values_of};
ghost use Rattle.q_rounds.specs.Rounds.{is_passed, next_in, rows_left};

use crate::counting::rows_in;
use crate::peer::Peer;
use crate::round::RoundKey;
use crate::rounds::Rounds;
use crate::walking::{first_fresh, first_ticket};
use q_dest::Sites;
use q_model::Id;

impl Rounds {
    /// The peer of the message at the transport that is sent to next: of those whose site has
    /// space the one that was sent to longest ago, before it those that never were, and among
    /// these the first that came. The walk passes only sites that are full.
    pub fn next_for(&self, id: Id, transport: usize, sites: &Sites) -> Option<&Peer>
        ensures { option_copied result
            ≡ next_in sites.now.items transport id (values_of self.now.items) }
    {
        self.peers.stand_apart();
        let Some(round) = self.rounds.find(&RoundKey { id, transport }) else {
            return None;
        };
        if let Some(number) = first_fresh(&self.fresh, &self.peers, round, sites) {
            return self.peers.get(number);
        }
        let Some(ticket) = first_ticket(&self.tickets, &self.peers, round, sites) else {
            return None;
        };
        self.peers.get(ticket.item)
    }

    /// How many rows of the message wait at the transport: so few that the rows of one peer more
    /// can be added.
    pub fn rows_left(&self, id: Id, transport: usize) -> u64
        ensures value { result ≡ rows_left id transport (values_of self.now.items) }
        ensures few { result + 2 ^ 32 < 2 ^ 64 }
    {
        self.peers.stand_apart();
        rows_in(&self.rounds, id, transport)
    }

    /// Whether the rows of a peer may be left in another order than that in which they came.
    pub fn has_passed(&self) -> bool
        ensures { result ≡ list_any is_passed (values_of self.now.items) }
    {
        self.passed > 0
    }
}
