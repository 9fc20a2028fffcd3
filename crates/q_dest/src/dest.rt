//! A site with its counts.
ghost use Rattle.std.specs.Prelude.{◌≡◌, ◌+◌, ◌<◌, ◌≤◌, ◌^◌};
ghost use Rattle.q_dest.specs.Dests.{begun, gained, has_space, heard, is_dead, is_dead_waiting, is_kept, is_remembered, is_unused, landed, left, new_dest, revived_now, with_known, woken};
ghost use Rattle.q_dest.specs.Ranks.{dead_rank, remembered_rank, rest_rank_in, time_rank, time_rank_in};

use crate::site_record::WideSiteRecord;
use q_keyed::HasKey;
use q_model::{Health, Moment, Site, SiteState};
use q_peers::site_hash;
use q_settings::Params;

/// What is known of a site, and what goes to it.
#[derive(Clone, Copy, Debug)]
pub struct Dest {
    pub known: WideSiteRecord,
    /// Rows that wait for it.
    pub waiting: u32,
    /// Deliveries to it in flight.
    pub busy: u32,
}

impl HasKey for Dest {
    ghost use Rattle.q_model.proofs.IdLaws.{site_eq-refl, site_eq-true};
    ghost use Rattle.q_model.specs.Sites.{site_eq};
    ghost use Rattle.q_peers.specs.Buckets.{site_hash};

    type Key = Site;

    ghost key_of = { λ d. d.known.site };

    ghost eq = { site_eq };

    ghost hash = { site_hash };

    fn has_key(&self, key: &Site) -> bool {
        *self.site() == *key
    }

    fn hash(&self) -> u32 {
        site_hash(self.site())
    }

    fn hash_of(key: &Site) -> u32 {
        site_hash(key)
    }

    ghost is_same = { site_eq-true };

    ghost is_own = { site_eq-refl };
}

impl Dest {
    /// A site that is used anew, for which one row waits.
    pub(crate) fn new(site: Site, params: &Params) -> Dest
        ensures { result ≡ new_dest params.now site }
    {
        Dest {
            known: WideSiteRecord::new(site, params),
            waiting: 1,
            busy: 0,
        }
    }

    pub(crate) fn site(&self) -> &Site
        ensures { result.now ≡ self.now.known.site }
    {
        self.known.site()
    }

    /// Whether no row waits for it, and no delivery to it is in flight.
    pub(crate) fn is_unused(&self) -> bool
        ensures { result ≡ is_unused self.now }
    {
        self.waiting == 0 && self.busy == 0
    }

    pub(crate) fn is_dead(&self) -> bool
        ensures { result ≡ is_dead self.now }
    {
        self.known.is_dead()
    }

    /// Whether it is dead or rests, and is only remembered.
    pub(crate) fn is_remembered(&self) -> bool
        ensures { result ≡ is_remembered self.now }
    {
        !self.known.is_awake() && self.is_unused()
    }

    /// Whether it is dead, and rows wait for it.
    pub(crate) fn is_dead_waiting(&self) -> bool
        ensures { result ≡ is_dead_waiting self.now }
    {
        self.is_dead() && self.waiting > 0
    }

    /// Whether it is used, is dead or rests, as each site is that has to be known.
    pub(crate) fn is_kept(&self) -> bool
        ensures { result ≡ is_kept self.now }
    {
        !self.known.is_awake() || !self.is_unused()
    }

    /// Whether it is alive and doesn't rest, and more deliveries to it may be in flight.
    pub(crate) fn has_space(&self) -> bool
        ensures { result ≡ has_space self.now }
    {
        self.known.has_space(u64::from(self.busy))
    }

    /// The rank by the moment until which it is dead.
    fn dead_until(&self) -> u64
        ensures { result ≡ time_rank_in self.now.known.health }
    {
        match self.known.health() {
            Health::Alive => u64::MAX,
            Health::DeadUntil(until) => until,
        }
    }

    /// The rank by the moment up to which it rests.
    fn rests_until(&self) -> u64
        ensures { result ≡ rest_rank_in self.now.known.rest }
    {
        match self.known.rest() {
            None => u64::MAX,
            Some(until) => until,
        }
    }

    /// The rank by the moment at which it is to be looked at: the earlier of the two.
    pub(crate) fn time_rank(&self) -> u64
        ensures { result ≡ time_rank self.now }
    {
        self.dead_until().min(self.rests_until())
    }

    /// The rank by whether it is dead.
    pub(crate) fn dead_rank(&self) -> u64
        ensures { result ≡ dead_rank self.now }
    {
        if self.is_dead() { 0 } else { u64::MAX }
    }

    /// The rank by whether it is remembered.
    pub(crate) fn remembered_rank(&self) -> u64
        ensures { result ≡ remembered_rank self.now }
    {
        if self.is_remembered() { 0 } else { u64::MAX }
    }

    fn with_known(&self, known: WideSiteRecord) -> Dest
        ensures { result ≡ with_known known self.now }
    {
        Dest {
            known,
            waiting: self.waiting,
            busy: self.busy,
        }
    }

    /// It hears of a delivery that is still counted in flight.
    pub(crate) fn heard(&self, params: &Params, moment: Moment, state: SiteState) -> Dest
        requires { moment ≤ 999990000000 }
        ensures { result ≡ heard params.now moment state self.now }
    {
        let mut known = self.known;
        known.hear(params, u64::from(self.busy), moment, state);
        self.with_known(known)
    }

    /// It is alive again.
    pub(crate) fn revived(&self, params: &Params) -> Dest
        ensures { result ≡ revived_now params.now self.now }
    {
        let mut known = self.known;
        known.revive(params, u64::from(self.busy));
        self.with_known(known)
    }

    /// It wakes: it is alive again where its time has come, and its rest ends where that is over.
    pub(crate) fn woken(&self, params: &Params, moment: Moment) -> Dest
        ensures { result ≡ woken params.now moment self.now }
    {
        let mut known = self.known;
        if known.is_due(moment) {
            known.revive(params, u64::from(self.busy));
        }
        known.end_rest(moment);
        self.with_known(known)
    }

    /// So many rows more wait for it.
    pub(crate) fn gained(&self, count: u32) -> Dest
        requires { self.now.waiting + count < 2 ^ 32 }
        ensures { result ≡ gained count self.now }
    {
        Dest {
            known: self.known,
            waiting: self.waiting + count,
            busy: self.busy,
        }
    }

    /// The delivery of a row to it begins.
    pub(crate) fn begun(&self) -> Dest
        requires { self.now.busy + 1 < 2 ^ 32 }
        ensures { result ≡ begun self.now }
    {
        Dest {
            known: self.known,
            waiting: self.waiting.saturating_sub(1),
            busy: self.busy + 1,
        }
    }

    /// A row leaves without a delivery.
    pub(crate) fn left(&self) -> Dest
        ensures { result ≡ left self.now }
    {
        Dest {
            known: self.known,
            waiting: self.waiting.saturating_sub(1),
            busy: self.busy,
        }
    }

    /// A delivery to it ends.
    pub(crate) fn landed(&self) -> Dest
        ensures { result ≡ landed self.now }
    {
        Dest {
            known: self.known,
            waiting: self.waiting,
            busy: self.busy.saturating_sub(1),
        }
    }
}
