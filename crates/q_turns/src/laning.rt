//! Lanes of sites.
ghost use Rattle.std.specs.Prelude.{◌≡◌, ◌<◌, ◌^◌, IfSome, length};
ghost use Rattle.q_heads.specs.Marks.{with_mark, without};
ghost use Rattle.q_turns.specs.Heading.{lane_of};
ghost use Rattle.q_turns.specs.Laning.{empty_lane, HasMade, lanes_without};
ghost use Rattle.q_turns.specs.Suspending.{class_at, class_in, classed_at};

use crate::lane::Lane;
use q_heads::Heads;
use q_keyed::Keyed;
use q_model::Site;
use q_sorted::Ticket;
use q_suspended::Suspended;

/// The class of the lanes of a transport, where their sites are suspended or where they aren't.
pub(crate) fn class_in(suspended: bool, transport: u32) -> u32
    requires { transport < 2 ^ 8 }
    ensures { result ≡ class_in suspended transport }
{
    if suspended {
        transport * 2 + 1
    } else {
        transport * 2
    }
}

/// The class of the site's lane.
fn class_at(suspended: &Suspended, site: &Site) -> u32
    ensures { result ≡ class_at suspended.now.items site.now }
{
    class_in(suspended.has(site), u32::from(site.transport))
}

/// Makes a lane for the site, where it has none.
pub(crate) fn make_lane(
    lanes: &mut Keyed<Lane>,
    heads: &mut Heads,
    suspended: &Suspended,
    site: &Site,
)
    requires room { length lanes.old.items < lanes.old.room }
    requires known { lanes.old.room ≡ heads.old.lanes }
    ensures lanes { lanes.new ≡ record lanes.old { items = lanes.new.items } }
    ensures made { HasMade (class_at suspended.now.items) site.now lanes.old.items lanes.new.items
        heads.old heads.new }
{
    if lanes.find(site).is_some() {
        return;
    }
    heads.stand_sorted();
    let lane = lanes.push(Lane { site: *site });
    heads.set_class(lane, class_at(suspended, site));
}

/// Lets the site's lane be of its class, where it has one.
pub(crate) fn class_lane(lanes: &Keyed<Lane>, heads: &mut Heads, suspended: &Suspended, site: &Site)
    requires { IfSome (lane_of site.now lanes.now.items) (λ lane. lane < heads.old.lanes) }
    ensures { heads.new ≡ record heads.old {
      classes = classed_at (lane_of site.now lanes.now.items)
          (class_at suspended.now.items site.now) heads.old.classes;
    } }
{
    if let Some(lane) = lanes.find(site) {
        heads.set_class(lane, class_at(suspended, site));
    }
}

/// Takes the site's lane out, where no ticket stands in it.
pub(crate) fn drop_lane(lanes: &mut Keyed<Lane>, heads: &Heads, site: &Site)
    ensures { lanes.new ≡ record lanes.old {
      items = lanes_without
          (empty_lane site.now lanes.old.items heads.now.items) lanes.old.items;
    } }
{
    let Some(lane) = lanes.find(site) else {
        return;
    };
    if heads.first_of_lane(lane).is_none() {
        let _lane = lanes.remove(lane);
    }
}

/// Puts the ticket in, where there is one.
pub(crate) fn put_in(heads: &mut Heads, head: Option<Ticket>)
    requires room { IfSome head (λ _. length heads.old.items < heads.old.room) }
    requires known { IfSome head (λ e. e.group < heads.old.lanes) }
    ensures { heads.new ≡ record heads.old { items = with_mark head heads.old.items } }
{
    if let Some(head) = head {
        heads.insert(head);
    }
}

/// Takes the ticket out, where there is one.
pub(crate) fn take_out(heads: &mut Heads, head: Option<Ticket>)
    ensures { heads.new ≡ record heads.old { items = without head heads.old.items } }
{
    if let Some(head) = head {
        heads.remove(&head);
    }
}
