//! A lane.
ghost use Rattle.std.specs.Prelude.{◌≡◌, ◌<◌};
ghost use Rattle.q_candidates.specs.Filing.{class_for, class_of_lane, group_for, lane_hash, lane_of};

use q_keyed::{HasKey, Keyed};
use q_model::Site;
use q_peers::site_hash;

/// A site at which rows of candidates wait that need so many deliveries.
#[derive(Clone, Copy, Debug)]
pub(crate) struct Lane {
    pub(crate) site: Site,
    pub(crate) need: u64,
    /// Whether it isn't walked along.
    pub(crate) suspended: bool,
}

/// What a lane is found by.
#[derive(Clone, Copy, Debug)]
pub(crate) struct LaneKey {
    pub(crate) site: Site,
    pub(crate) need: u64,
}

/// A prime, and the greatest number of 31 bits.
const MODULUS: u64 = 2_147_483_647;

/// A number that is taken from both.
fn lane_hash(site: &Site, need: u64) -> u32
    ensures { result ≡ lane_hash (record { site = site.now; need = need }) }
{
    ((u64::from(site_hash(site)) * 31 + need % MODULUS) % MODULUS) as u32
}

/// The number of the lane of the site and the need.
pub(crate) fn lane_of(lanes: &Keyed<Lane>, site: &Site, need: u64) -> Option<u32>
    ensures { result ≡ lane_of site.now need lanes.now.items }
{
    lanes.find(&LaneKey { site: *site, need })
}

/// The group of the lanes of a transport, where they are suspended or where they aren't.
pub(crate) fn group_for(suspended: bool, transport: u8) -> u32
    ensures is { result ≡ group_for suspended transport }
    ensures few { result < 512 }
{
    if suspended {
        u32::from(transport) + 256
    } else {
        u32::from(transport)
    }
}

/// The class of those of them in which so many deliveries are needed. Needs that differ by 2^23
/// share one.
pub(crate) fn class_for(suspended: bool, transport: u8, need: u64) -> u32
    ensures { result ≡ class_for suspended transport need }
{
    (need % 8_388_608) as u32 * 512 + group_for(suspended, transport)
}

/// The class of a lane.
pub(crate) fn class_of(lane: &Lane) -> u32
    ensures { result ≡ class_of_lane lane.now }
{
    class_for(lane.suspended, lane.site.transport, lane.need)
}

impl HasKey for Lane {
    ghost use Rattle.q_candidates.specs.Filing.{key_of_lane, lane_eq, lane_hash};
    ghost use Rattle.q_candidates.specs.LaneLaws.{lane_eq-refl, lane_eq-true};

    type Key = LaneKey;

    ghost key_of = { key_of_lane };

    ghost eq = { lane_eq };

    ghost hash = { lane_hash };

    fn has_key(&self, key: &LaneKey) -> bool {
        self.site == key.site && self.need == key.need
    }

    fn hash(&self) -> u32 {
        lane_hash(&self.site, self.need)
    }

    fn hash_of(key: &LaneKey) -> u32 {
        lane_hash(&key.site, key.need)
    }

    ghost is_same = { lane_eq-true };

    ghost is_own = { lane_eq-refl };
}
