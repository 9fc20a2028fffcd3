//! Recipients that were read are grouped in rows, as many in one as a delivery may have.
ghost use Rattle.std.specs.Prelude.{◌≡◌, ◌<◌, ◌≤◌, ◌+◌, ◌++◌, [], ◌∷◌, length, position, slice_get, Some};
ghost use Rattle.std.specs.Option.{option_copied};
ghost use Rattle.q_core.specs.Grouping.{AreOpen};
ghost use Rattle.q_core.specs.Loading.{joined_at, rows_in, has_space, row_of_one};
ghost use Rattle.q_model.specs.Batches.{join_rows};
ghost use Rattle.q_model.specs.Values.{Taken};
ghost use Rattle.q_open_rows.specs.Opened.{with_place};
ghost use Rattle.q_positions.specs.Rows.{row_shown};

use crate::names::same_site;
use q_model::{Batch, Id, Site};
use q_open_rows::OpenRows;
use q_positions::{RowList, RowRef};

/// Whether the row is of this site, and not full.
fn has_space(row: RowRef<'_>, site: &Site, limit: u32) -> bool
    ensures { result ≡ has_space limit site.now (row_shown row.entry) }
{
    same_site(row.site, site) && row.positions.len() < limit as usize
}

/// The first row of the site that isn't full, which is the one that was begun last.
fn row_for(rows: &RowList, open_rows: &OpenRows, site: &Site, limit: u32) -> Option<usize>
    requires { AreOpen limit open_rows.now.items rows.now.rows }
    ensures { result ≡ position (has_space limit site.now) rows.now.rows }
{
    let place = open_rows.place(site)?;
    let row = rows.get(place)?;
    if has_space(row, site, limit) {
        Some(place)
    } else {
        None
    }
}

/// Begins a row of the site behind all others.
fn begin_row(rows: &mut RowList, open_rows: &mut OpenRows, id: Id, site: &Site, position: u32)
    requires room { length rows.old.rows < rows.old.room }
    requires places { length open_rows.old.items < open_rows.old.room }
    ensures rows { rows.new ≡ record rows.old
        { rows = rows.old.rows ++ row_of_one id site.now position ∷ [] } }
    ensures places { open_rows.new ≡ record open_rows.old
        { items = with_place site.now (length rows.old.rows) open_rows.old.items } }
{
    open_rows.set(site, rows.len());
    rows.begin(id, site, position);
}

/// The position joins the row of its site that isn't full, or begins one.
fn join_row(rows: &mut RowList, open_rows: &mut OpenRows, id: Id, site: &Site, position: u32)
    requires kept { AreOpen rows.old.most open_rows.old.items rows.old.rows }
    requires room { length rows.old.rows < rows.old.room }
    requires places { length open_rows.old.items < open_rows.old.room }
    ensures rows { rows.new ≡ record rows.old
        { rows = join_rows rows.old.most id site.now position rows.old.rows } }
    ensures kept { AreOpen rows.old.most open_rows.new.items rows.new.rows }
    ensures room { open_rows.new.room ≡ open_rows.old.room }
    ensures few { length open_rows.new.items ≤ length open_rows.old.items + 1 }
{
    match row_for(rows, open_rows, site, rows.most()) {
        Some(place) => rows.add(place, position),
        None => begin_row(rows, open_rows, id, site, position),
    }
}

/// The same where it has a site.
fn join_at(rows: &mut RowList, open_rows: &mut OpenRows, id: Id, site: Option<&Site>, position: u32)
    requires kept { AreOpen rows.old.most open_rows.old.items rows.old.rows }
    requires room { length rows.old.rows < rows.old.room }
    requires places { length open_rows.old.items < open_rows.old.room }
    ensures rows { rows.new ≡ record rows.old {
      rows = joined_at rows.old.most id rows.old.rows
          position (option_copied site.entry);
    } }
    ensures more { length rows.new.rows ≤ length rows.old.rows + 1 }
    ensures kept { AreOpen rows.old.most open_rows.new.items rows.new.rows }
    ensures room { open_rows.new.room ≡ open_rows.old.room }
    ensures few { length open_rows.new.items ≤ length open_rows.old.items + 1 }
{
    if let Some(site) = site {
        join_row(rows, open_rows, id, site, position);
    }
}

fn site_at(sites: &[Site], i: usize) -> Option<&Site>
    ensures { option_copied result ≡ slice_get sites.now i }
{
    sites.get(i)
}

fn position_at(taken: &Batch, i: usize) -> u32
    requires { i < length taken.now.items }
    ensures { (t : Taken) → slice_get taken.now.items i ≡ Some t → result ≡ t.position }
{
    taken.get(i).position
}

/// Makes rows of recipients that were read, in place of those that were there. Their sites are
/// these in the same order, and a row has no more of them than have room.
pub(crate) fn group(
    rows: &mut RowList,
    open_rows: &mut OpenRows,
    id: Id,
    taken: &Batch,
    sites: &[Site],
)
    requires room { length taken.now.items ≤ rows.old.room }
    requires places { length taken.now.items ≤ open_rows.old.room }
    ensures rows { rows.new ≡ record rows.old
        { rows = rows_in rows.old.most id [] taken.now.items sites.now } }
    ensures room { open_rows.new.room ≡ open_rows.old.room }
{
    rows.clear();
    open_rows.clear();
    for i in 0..taken.len() {
        join_at(
            rows,
            open_rows,
            id,
            site_at(sites, i),
            position_at(taken, i),
        );
    }
}
