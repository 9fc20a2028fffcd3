//! Sites that rest are suspended, so that no walk passes them (postconf(5),
//! default_destination_rate_delay).
ghost use Rattle.std.specs.Prelude.{◌≡◌, ◌+◌, false, List};
ghost use Rattle.std.specs.Option.{option_map_or};
ghost use Rattle.q_core.specs.Ties.{AreSuspended, rest_at};
ghost use Rattle.q_dest.specs.declared.dest.Dest.{Dest};
ghost use Rattle.q_model.specs.Sites.{site_eq};
ghost use Rattle.q_model.specs.Values.{Site as SiteOf};

use q_dest::Sites;
use q_model::{Moment, Site};
use q_schedule::Schedule;

/// The moment up to which the site rests.
fn rests_until(sites: &Sites, site: &Site) -> Option<Moment>
    ensures { option_map_or (λ t. t + 1) result 0 ≡ rest_at sites.now.items site.now }
{
    let record = sites.get(site)?;
    record.rest()
}

/// Suspends the site for as long as it rests, after what is known of it changed.
pub(crate) fn suspend_at(schedule: &mut Schedule, sites: &Sites, site: &Site)
    ensures rest { schedule.new ≡ record schedule.old { suspended = schedule.new.suspended } }
    ensures tied { (ds : List Dest)
        → ((s : SiteOf) → site_eq site.now s ≡ false → rest_at sites.now.items s ≡ rest_at ds s)
        → AreSuspended ds schedule.old.suspended
        → AreSuspended sites.now.items schedule.new.suspended }
{
    schedule.resume(site);
    if let Some(until) = rests_until(sites, site) {
        schedule.suspend(site, until);
    }
}
