//! Rows to dead sites are held back: none of them is sent, and they are put off first.
ghost use Rattle.std.specs.Prelude.{◌≡◌, Bool, if◌then◌else◌};
ghost use Rattle.q_core.specs.Ties.{AreWaitingTied, goes_to_dead};
ghost use Rattle.q_held.specs.Held.{AreHeldBy, rows_of};
ghost use Rattle.q_model.specs.Sites.{site_eq};
ghost use Rattle.q_model.specs.declared.rows.Row.{Row};

use q_dest::Sites;
use q_held::Rows;
use q_model::Site;

/// Holds each row back whose site is dead, and lets the others go, by a walk along all.
fn hold_each(waiting: &mut Rows, sites: &Sites)
    ensures rows { rows_of waiting.new.items ≡ rows_of waiting.old.items }
    ensures held { AreHeldBy (goes_to_dead sites.now.items) waiting.new.items }
    ensures room { waiting.new.room ≡ waiting.old.room }
    ensures most { waiting.new.most ≡ waiting.old.most }
{
    let mut at = waiting.first();
    while let Some(number) = at {
        waiting.stand_apart();
        let Some(row) = waiting.get(number) else {
            return;
        };
        let site = *row.site;
        waiting.hold(&site, sites.is_dead(&site));
        at = waiting.next(number);
    }
}

/// Holds the rows to a site back where it died, and lets them go where it came back to life, by a
/// walk along these. Else it does nothing.
pub(crate) fn hold_at(waiting: &mut Rows, site: &Site, was_dead: bool, is_dead: bool)
    ensures rows { rows_of waiting.new.items ≡ rows_of waiting.old.items }
    ensures held { (p q : Row → Bool)
        → ((r : Row) → p r ≡ (if site_eq r.site site.now then was_dead else p r))
        → ((r : Row) → q r ≡ (if site_eq r.site site.now then is_dead else p r))
        → AreHeldBy p waiting.old.items → AreHeldBy q waiting.new.items }
    ensures room { waiting.new.room ≡ waiting.old.room }
    ensures most { waiting.new.most ≡ waiting.old.most }
{
    if is_dead != was_dead {
        waiting.hold(site, is_dead);
    }
}

/// Holds just the rows to dead sites back, after some of these came back to life. Where no row
/// waits at a site that is still dead it takes as many steps as were held back. Else it is a walk
/// along all, which doesn't happen where such rows are put off before the next event is taken.
pub(crate) fn hold_dead(waiting: &mut Rows, sites: &Sites)
    requires { AreWaitingTied sites.now.items (rows_of waiting.old.items) }
    ensures rows { rows_of waiting.new.items ≡ rows_of waiting.old.items }
    ensures held { AreHeldBy (goes_to_dead sites.now.items) waiting.new.items }
    ensures room { waiting.new.room ≡ waiting.old.room }
    ensures most { waiting.new.most ≡ waiting.old.most }
{
    if sites.dead_waiting() == 0 {
        waiting.release_all();
    } else {
        hold_each(waiting, sites);
    }
}
