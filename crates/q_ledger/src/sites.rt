//! The records of sites: found, and asked whether nothing is sent there any more.
ghost use Rattle.std.specs.Prelude.{◌≡◌, find, not};
ghost use Rattle.std.specs.List.{list_any};
ghost use Rattle.std.specs.Option.{option_copied};
ghost use Rattle.q_ledger.specs.Spaces.{is_dead_by};
ghost use Rattle.q_model.specs.SiteRecords.{is_alive, is_dead_site, record_of};
ghost use Rattle.q_model.specs.Sites.{site_eq};

use crate::ids::same_site;
use crate::ledger::Ledger;
use crate::site_record::WideSiteRecord;
use q_model::Site;

fn record_among<'a>(sites: &'a [WideSiteRecord], site: &Site) -> Option<&'a WideSiteRecord>
    ensures { option_copied result ≡ find (λ r. site_eq r.site site.now) sites.now }
{
    sites.iter().find(|noted| same_site(&noted.site, site))
}

/// Whether nothing is sent to the site any more, by these records.
pub(crate) fn is_dead_by(sites: &[WideSiteRecord], site: &Site) -> bool
    ensures { result ≡ is_dead_by sites.now site.now }
{
    match record_among(sites, site) {
        Some(noted) => noted.is_dead(),
        None => false,
    }
}

impl Ledger {
    pub(crate) fn site_record(&self, site: &Site) -> Option<&WideSiteRecord>
        ensures { option_copied result ≡ record_of self.now.ledger site.now }
    {
        record_among(&self.sites, site)
    }

    pub(crate) fn is_dead_site(&self, site: &Site) -> bool
        ensures { result ≡ is_dead_site self.now.ledger site.now }
    {
        is_dead_by(&self.sites, site)
    }

    /// Whether a site is known to be dead.
    pub(crate) fn has_dead_site(&self) -> bool
        ensures { result ≡ list_any (λ r. not (is_alive r.health)) self.now.ledger.sites }
    {
        self.sites.iter().any(|noted| noted.is_dead())
    }
}
