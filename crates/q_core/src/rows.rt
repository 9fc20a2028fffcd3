//! What is asked of the rows that wait, and how they come and go.
ghost use Rattle.std.specs.Prelude.{◌≡◌, Bool, ◌≤◌, ◌<◌, ◌+◌, ◌++◌, ◌^◌, count_by, find, length, option_map};
ghost use Rattle.q_core.specs.RowWalks.{is_row_for};
ghost use Rattle.q_core.specs.Sending.{is_for};
ghost use Rattle.q_core.specs.Tidied.{waits_for as waits_for_in};
ghost use Rattle.q_core.specs.Ties.{ArePeersTied, goes_to_dead};
ghost use Rattle.q_held.specs.Held.{AreHeldBy, rows_of};
ghost use Rattle.q_model.specs.Lists.{drop_first};
ghost use Rattle.q_model.specs.declared.rows.Row.{Row};
ghost use Rattle.q_positions.specs.Rows.{row_shown};

use q_dest::Sites;
use q_held::Rows;
use q_model::{Id, Site};
use q_positions::{RowList, RowRef};
use q_schedule::Schedule;

/// How many rows of the message wait for the transport.
pub(crate) fn waiting_for(schedule: &Schedule, waiting: &Rows, id: Id, transport: usize) -> u64
    requires { ArePeersTied schedule.now.peers (rows_of waiting.now.items) }
    ensures count { result ≡ count_by (is_row_for id transport) (rows_of waiting.now.items) }
    ensures few { result ≤ 2 ^ 30 }
{
    schedule.stand_apart();
    waiting.stand_apart();
    schedule.rows_left(id, transport)
}

/// Whether a row of the message waits for the transport.
pub(crate) fn waits_for(schedule: &Schedule, waiting: &Rows, id: Id, transport: usize) -> bool
    requires { ArePeersTied schedule.now.peers (rows_of waiting.now.items) }
    ensures { result ≡ waits_for_in (rows_of waiting.now.items) id transport }
{
    waiting_for(schedule, waiting, id, transport) != 0
}

/// The message's first row for the site.
pub(crate) fn first_row<'a>(waiting: &'a Rows, id: Id, site: &Site) -> Option<RowRef<'a>>
    ensures { option_map row_shown result
        ≡ find (is_for id site.now) (rows_of waiting.now.items) }
{
    waiting.stand_apart();
    match waiting.first_for(id, site) {
        Some(number) => waiting.get(number),
        None => None,
    }
}

/// Takes the message's first row for the site out, where there is one. The others are held back as
/// they were.
pub(crate) fn take_row(waiting: &mut Rows, id: Id, site: &Site)
    ensures held { (p : Row → Bool) → AreHeldBy p waiting.old.items → AreHeldBy p waiting.new.items }
    ensures rows { rows_of waiting.new.items
        ≡ drop_first (is_for id site.now) (rows_of waiting.old.items) }
    ensures room { waiting.new.room ≡ waiting.old.room }
    ensures most { waiting.new.most ≡ waiting.old.most }
{
    waiting.stand_apart();
    if let Some(number) = waiting.first_for(id, site) {
        let _ = waiting.remove(number);
    }
}

/// Adds the rows behind all others. Those to dead sites are held back.
pub(crate) fn add_all(waiting: &mut Rows, rows: &RowList, sites: &Sites)
    requires room { length (rows_of waiting.old.items) + length rows.now.rows ≤ waiting.old.room }
    requires short { rows.now.most ≤ waiting.old.most }
    ensures rows { rows_of waiting.new.items ≡ rows_of waiting.old.items ++ rows.now.rows }
    ensures held { AreHeldBy (goes_to_dead sites.now.items) waiting.old.items
        → AreHeldBy (goes_to_dead sites.now.items) waiting.new.items }
    ensures room { waiting.new.room ≡ waiting.old.room }
    ensures most { waiting.new.most ≡ waiting.old.most }
{
    rows.stand_short();
    for place in 0..rows.len() {
        let Some(row) = rows.get(place) else {
            return;
        };
        let is_dead = sites.is_dead(row.site);
        let _ = waiting.push(row, is_dead);
    }
}
