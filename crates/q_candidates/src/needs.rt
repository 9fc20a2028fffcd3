//! The needs of a transport, in rising order.
ghost use Rattle.std.specs.Prelude.{◌≡◌};
ghost use Rattle.q_candidates.specs.Choosing.{cut_at, IsNextNeed};
ghost use Rattle.q_candidates.specs.Sound.{IsLaid};

use crate::index::Index;
use q_sorted::Ticket;

/// What goes before all lanes of the transport that have this need or a greater one.
fn cut_at(transport: u8, from: u64) -> Ticket
    ensures { result ≡ cut_at transport from }
{
    Ticket {
        key: u128::from(from),
        group: u32::from(transport),
        item: 0,
    }
}

impl Index {
    /// The least need of the transport that is this one or more, and no more than the other. It is
    /// one of lanes that aren't suspended.
    pub(crate) fn next_need(&self, transport: u8, from: u64, most: u64) -> Option<u64>
        requires { IsLaid self.now }
        ensures { IsNextNeed transport from most self.now.lanes.items result }
    {
        self.lanes.stand_apart();
        let next = self.needs.first_from(&cut_at(transport, from))?;
        if next.group != u32::from(transport) {
            return None;
        }
        let lane = self.lanes.get(next.item)?;
        if lane.need > most {
            return None;
        }
        Some(lane.need)
    }
}
