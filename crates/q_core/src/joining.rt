//! A message that has come to wait joins lines, and its rows are counted at their sites.
ghost use Rattle.std.specs.Prelude.{◌≡◌, ◌<◌, ◌≤◌, ◌+◌, ◌++◌, ◌^◌, ◌==◌, [], length, List, map, slice_get, Some, true, ℕ};
ghost use Rattle.std.specs.List.{enumerate_from, list_all, list_any};
ghost use Rattle.q_core.specs.Loading.{AreRowsOf, can_join, joined_within, joins_in, new_sites};
ghost use Rattle.q_core.specs.Known.{known_records};
ghost use Rattle.q_core.specs.ServedRows.{served_rows};
ghost use Rattle.q_core.specs.Ties.{AreBusyTied, ArePeersTied, AreTurnsTied, AreWaitingTied, goes_to_dead, rest_at};
ghost use Rattle.q_model.specs.Values.{Site as SiteOf};
ghost use Rattle.q_model.specs.declared.rows.Delivery.{Delivery};
ghost use Rattle.q_held.specs.Held.{rows_of};
ghost use Rattle.q_model.specs.declared.rows.Row.{Row};
ghost use Rattle.q_turns.specs.Turns.{line_at, may_wait, with_line};

use q_dest::Sites;
use q_held::Rows;
use q_model::{Id, Site};
use q_positions::RowList;
use q_schedule::Schedule;
use q_settings::Params;

/// The site of the row at a place.
fn site_at(rows: &RowList, i: usize) -> &Site
    requires { i < length rows.now.rows }
    ensures { (r : Row) → slice_get rows.now.rows i ≡ Some r → result.now ≡ r.site }
{
    let Some(row) = rows.get(i) else {
        unreachable!()
    };
    row.site
}

/// Counts these rows, of which none waits yet, at their sites. A site that has no record gets one.
pub(crate) fn count_rows(sites: &mut Sites, rows: &RowList, waiting: &Rows, params: &Params)
    requires tied { AreWaitingTied sites.old.items (rows_of waiting.now.items) }
    requires room { length sites.old.items + length rows.now.rows ≤ sites.old.room }
    requires few { length (rows_of waiting.now.items) + length rows.now.rows < 2 ^ 32 }
    ensures known { known_records sites.new.items ≡ known_records sites.old.items
        ++ new_sites params.now (known_records sites.old.items) [] rows.now.rows }
    ensures waiting { AreWaitingTied sites.new.items (rows_of waiting.now.items ++ rows.now.rows) }
    ensures busy { (fs : List Delivery) → AreBusyTied sites.old.items fs
        → AreBusyTied sites.new.items fs }
    ensures dead { (r : Row) → goes_to_dead sites.new.items r ≡ goes_to_dead sites.old.items r }
    ensures rests { (s : SiteOf) → rest_at sites.new.items s ≡ rest_at sites.old.items s }
    ensures room { sites.new.room ≡ sites.old.room }
{
    for i in 0..rows.len() {
        sites.gain(site_at(rows, i), params);
    }
}

fn has_row_at(rows: &RowList, at: usize) -> bool
    ensures { result ≡ list_any (λ r. r.site.transport == at) rows.now.rows }
{
    for i in 0..rows.len() {
        if usize::from(site_at(rows, i).transport) == at {
            return true;
        }
    }
    false
}

/// Whether the message has one of these rows at the transport, and no job in its line.
fn joins(schedule: &Schedule, id: Id, rows: &RowList, at: usize) -> bool
    ensures { result ≡ joins_in id rows.now.rows at (line_at at schedule.now.lines) }
{
    has_row_at(rows, at) && schedule.job(at, id).is_none()
}

/// Whether the line has room, where the message joins it.
fn can_join(schedule: &Schedule, id: Id, rows: &RowList, at: usize) -> bool
    requires { at < length schedule.now.lines }
    ensures { result ≡ can_join id rows.now.rows schedule.now.line_room
        (at, line_at at schedule.now.lines) }
{
    !joins(schedule, id, rows, at) || schedule.spare_jobs(at) != 0
}

/// Whether each line has room that the message joins.
pub(crate) fn can_join_all(schedule: &Schedule, id: Id, rows: &RowList) -> bool
    ensures { result ≡ list_all (can_join id rows.now.rows schedule.now.line_room)
        (enumerate_from 0 schedule.now.lines) }
{
    for at in 0..schedule.transports() {
        if !can_join(schedule, id, rows, at) {
            return false;
        }
    }
    true
}

/// The message joins the line, where it has come to wait there, and has room.
fn join(schedule: &mut Schedule, id: Id, rows: &RowList, at: usize)
    requires { at < length schedule.old.lines }
    ensures { schedule.new ≡ record schedule.old {
      lines = with_line at
          (λ jobs. joined_within id rows.now.rows schedule.old.line_room (at, jobs))
          schedule.old.lines;
    } }
{
    if joins(schedule, id, rows, at) && schedule.spare_jobs(at) != 0 {
        schedule.join(at, id);
    }
}

/// The message joins the lines in which it has come to wait, where they have room.
pub(crate) fn join_lines(schedule: &mut Schedule, id: Id, rows: &RowList)
    ensures { schedule.new ≡ record schedule.old {
      lines = map
          (joined_within id rows.now.rows schedule.old.line_room)
          (enumerate_from 0 schedule.old.lines);
    } }
{
    for at in 0..schedule.transports() {
        join(schedule, id, rows, at);
    }
}

/// Counts these rows of the message, of which none waits yet, at their peers. It has a job at the
/// transport of each that has a line.
pub(crate) fn count_peers(schedule: &mut Schedule, id: Id, rows: &RowList, waiting: &Rows)
    requires own { AreRowsOf id rows.now.rows }
    requires jobs { list_all (λ r. may_wait schedule.old.lines r.site.transport id)
        rows.now.rows ≡ true }
    requires tied { ArePeersTied schedule.old.peers (rows_of waiting.now.items) }
    requires room { length schedule.old.peers + length rows.now.rows ≤ schedule.old.room }
    requires few { length (rows_of waiting.now.items) + length rows.now.rows < 2 ^ 32 }
    ensures rest { schedule.new ≡ record schedule.old { peers = schedule.new.peers } }
    ensures served { served_rows schedule.new.peers ≡ served_rows schedule.old.peers }
    ensures tied { (starts : ℕ) → AreTurnsTied schedule.old.peers (rows_of waiting.now.items) starts
        → AreTurnsTied schedule.new.peers (rows_of waiting.now.items ++ rows.now.rows) starts }
{
    for i in 0..rows.len() {
        schedule.stand_apart();
        schedule.gain(id, site_at(rows, i));
    }
}
