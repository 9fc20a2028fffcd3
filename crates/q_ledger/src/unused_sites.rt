//! What holds of sites after each entry: a record stays while its site is used, dead or rests, those that came
//! to be unused stand in their order, and no more are remembered than may be.
ghost use Rattle.std.specs.Prelude.{◌≡◌, ◌&&◌, ◌<◌, ◌++◌, ◌==◌, [], count_by, filter, length, not, position, true, ◌∷◌};
ghost use Rattle.std.specs.List.{list_any, remove};
ghost use Rattle.q_ledger.specs.Settled.{with_sites};
ghost use Rattle.q_ledger.specs.Tidied.{TidiesIn};
ghost use Rattle.q_ledger.specs.Tidying.{AtPlace, forgotten_by, forgotten_in, is_among, is_asleep, is_at, is_remembered_in, is_unused_at, is_unused_in, moved_back, ordered_left, put_last, sites_left, sites_woken, stays_where, tidied_in, with_sites_tidied};
ghost use Rattle.q_ledger.specs.Worlds.{world_of};
ghost use Rattle.q_model.specs.Lists.{drop_first};
ghost use Rattle.q_model.specs.SiteRecords.{is_awake};
ghost use Rattle.q_model.specs.Sites.{site_eq};

use crate::ids::same_site;
use crate::ledger::Ledger;
use crate::site_record::WideSiteRecord;
use crate::waiting::Waiting;
use crate::world::World;
use q_model::{Delivery, Site};

/// How many deliveries are in flight at the site.
fn busy(flights: &[Delivery], site: &Site) -> usize
    ensures { result ≡ count_by (λ f. site_eq f.row.site site.now) flights.now }
{
    flights
        .iter()
        .filter(|flight| same_site(&flight.row.site, site))
        .count()
}

/// Whether nothing waits there and nothing is in flight.
fn is_unused(waiting: &Waiting, flights: &[Delivery], site: &Site) -> bool
    ensures { result ≡ is_unused_in waiting.now flights.now site.now }
{
    if busy(flights, site) != 0 {
        return false;
    }
    !waiting.waits_at(site)
}

/// Whether the site is one of these.
fn is_among(sites: &[Site], site: &Site) -> bool
    ensures { result ≡ is_among sites.now site.now }
{
    sites.iter().any(|other| same_site(other, site))
}

/// Whether the record stays where these sites woke.
fn stays_where(
    woken: &[Site],
    waiting: &Waiting,
    flights: &[Delivery],
    noted: &WideSiteRecord,
) -> bool
    ensures { result ≡ stays_where woken.now waiting.now flights.now noted.now }
{
    !(noted.is_awake() && is_among(woken, &noted.site) && is_unused(waiting, flights, &noted.site))
}

/// Whether the site is dead or rests, and is only remembered.
fn is_remembered(waiting: &Waiting, flights: &[Delivery], noted: &WideSiteRecord) -> bool
    ensures { result ≡ is_remembered_in waiting.now flights.now noted.now }
{
    !noted.is_awake() && is_unused(waiting, flights, &noted.site)
}

fn is_at(noted: &WideSiteRecord, site: &Site) -> bool
    ensures { result ≡ is_at site.now noted.now }
{
    same_site(&noted.site, site)
}

/// Of these sites drops the records of those that aren't used, where they are awake.
fn drop_unused(
    sites: &mut Vec<WideSiteRecord>,
    woken: &[Site],
    waiting: &Waiting,
    flights: &[Delivery],
)
    ensures { sites.new.items
        ≡ filter (stays_where woken.now waiting.now flights.now) sites.old.items }
{
    sites.retain(|noted| stays_where(woken, waiting, flights, noted));
}

fn first_at(sites: &[WideSiteRecord], site: &Site) -> Option<usize>
    ensures { result ≡ position (is_at site.now) sites.now }
{
    sites.iter().position(|noted| is_at(noted, site))
}

fn move_to_end(sites: &mut Vec<WideSiteRecord>, place: usize)
    requires { place < length sites.old.items }
    ensures { AtPlace sites.old.items place (λ r.
        sites.new.items ≡ remove sites.old.items place ++ r ∷ []) }
{
    let noted = sites.remove(place);
    let _ = sites.push(noted);
}

/// Moves the record of the site to the end.
fn move_back(sites: &mut Vec<WideSiteRecord>, site: &Site)
    ensures { sites.new.items ≡ moved_back (is_at site.now) sites.old.items }
{
    if let Some(place) = first_at(sites, site) {
        move_to_end(sites, place);
    }
}

/// Whether the record isn't that of the site, or is dead or rests.
fn stays(noted: &WideSiteRecord, site: &Site) -> bool
    ensures { result ≡ not (is_at site.now noted.now && is_awake noted.now) }
{
    !(is_at(noted, site) && noted.is_awake())
}

/// Drops the record of the site, where it is alive and doesn't rest.
fn drop_awake(sites: &mut Vec<WideSiteRecord>, site: &Site)
    ensures { sites.new.items ≡ filter (λ r. not (is_at site.now r && is_awake r)) sites.old.items }
{
    sites.retain(|noted| stays(noted, site));
}

/// Moves the record of the site to the end, or drops it where it is awake.
fn put_last(sites: &mut Vec<WideSiteRecord>, site: &Site)
    ensures { sites.new.items ≡ put_last site.now sites.old.items }
{
    move_back(sites, site);
    drop_awake(sites, site);
}

/// How many sites are dead or rest.
fn count_asleep(sites: &[WideSiteRecord]) -> usize
    ensures { result ≡ length (filter is_asleep sites.now) }
{
    sites.iter().filter(|noted| !noted.is_awake()).count()
}

fn count_remembered(sites: &[WideSiteRecord], waiting: &Waiting, flights: &[Delivery]) -> usize
    ensures { result ≡ length (filter (is_remembered_in waiting.now flights.now) sites.now) }
{
    sites
        .iter()
        .filter(|noted| is_remembered(waiting, flights, noted))
        .count()
}

fn first_remembered(
    sites: &[WideSiteRecord],
    waiting: &Waiting,
    flights: &[Delivery],
) -> Option<usize>
    ensures { result ≡ position (is_remembered_in waiting.now flights.now) sites.now }
{
    sites
        .iter()
        .position(|noted| is_remembered(waiting, flights, noted))
}

fn drop_oldest(sites: &mut Vec<WideSiteRecord>, waiting: &Waiting, flights: &[Delivery])
    ensures { sites.new.items
        ≡ drop_first (is_remembered_in waiting.now flights.now) sites.old.items }
{
    if let Some(place) = first_remembered(sites, waiting, flights) {
        sites.remove(place);
    }
}

/// Forgets the site that is unused longest of those that are dead or rest, where they are more than the
/// limit. How many of them are unused is looked at only then.
fn forget_oldest(
    sites: &mut Vec<WideSiteRecord>,
    waiting: &Waiting,
    flights: &[Delivery],
    limit: usize,
)
    ensures { sites.new.items ≡ forgotten_in waiting.now flights.now limit sites.old.items }
{
    if count_asleep(sites) <= limit {
        return;
    }
    if count_remembered(sites, waiting, flights) > limit {
        drop_oldest(sites, waiting, flights);
    }
}

impl Ledger {
    fn is_unused(&self, site: &Site) -> bool
        ensures { result ≡ is_unused_at self.now.ledger site.now }
    {
        is_unused(&self.waiting, &self.flights, site)
    }

    fn put_last(&mut self, site: &Site)
        ensures { self.new ≡ with_sites (put_last site.now self.old.ledger.sites) self.old }
    {
        put_last(&mut self.sites, site);
    }

    fn forget_oldest(&mut self, world: &World)
        ensures { self.new ≡ with_sites (forgotten_by (world_of world.now) self.old.ledger
            self.old.ledger.sites) self.old }
    {
        let limit = world.params.qmgr_message_recipient_limit as usize;
        forget_oldest(&mut self.sites, &self.waiting, &self.flights, limit);
    }

    /// Puts the record of a site that a row has left in its order, where the site is unused now.
    fn order_left(&mut self, site: &Site)
        ensures { self.new ≡ with_sites (ordered_left self.old.ledger site.now) self.old }
    {
        if self.is_unused(site) {
            self.put_last(site);
        }
    }

    /// Tidies the records, where a row has left this site.
    fn tidy_left(&mut self, world: &World, site: &Site)
        ensures { self.new ≡ with_sites (sites_left (world_of world.now) self.old.ledger site.now)
            self.old }
    {
        self.order_left(site);
        self.forget_oldest(world);
    }

    /// Drops the records of sites that woke and aren't used.
    fn tidy_woken(&mut self, woken: &[Site])
        ensures { self.new ≡ with_sites (sites_woken woken.now self.old.ledger) self.old }
    {
        if !woken.is_empty() {
            drop_unused(&mut self.sites, woken, &self.waiting, &self.flights);
        }
    }

    fn tidy_sites(&mut self, world: &World, woken: &[Site])
        ensures { self.new ≡ with_sites_tidied (world_of world.now) woken.now self.old }
    {
        match self.left {
            Some(site) => {
                self.left = None;
                self.tidy_left(world, &site);
            }
            None => self.tidy_woken(woken),
        }
    }

    /// Tidies sites and the scan after an entry by which these sites woke.
    fn tidy_after(&mut self, world: &World, woken: &[Site])
        ensures { self.new ≡ tidied_in (world_of world.now) woken.now self.old }
    {
        self.tidy_sites(world, woken);
        self.tidy_scan();
    }

    /// The same of an entry that is allowed and was taken over: the ledger is what it is to be after it.
    pub(crate) fn tidy(&mut self, world: &World, woken: &[Site])
        ensures { TidiesIn (world_of world.now) woken.now self.old self.new }
    {
        self.tidy_after(world, woken);
    }
}
