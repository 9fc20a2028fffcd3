//! The rows that wait.
ghost use Rattle.std.specs.Prelude.{◌≡◌, ◌<◌, ◌+◌, ◌++◌, take, [], false, filter, find, IfOk, position, OnErr, OnOk, sum_by, length, true};
ghost use Rattle.std.specs.List.{list_all, list_any};
ghost use Rattle.q_model.specs.Ids.{id_eq};
ghost use Rattle.q_model.specs.Lists.{drop_first, has_none};
ghost use Rattle.q_model.specs.Starts.{is_row};
ghost use Rattle.q_model.specs.Sites.{site_eq};
ghost use Rattle.std.specs.Option.{option_copied};
ghost use Rattle.q_ledger.specs.Spaces.{is_dead_by};
ghost use Rattle.q_ledger.specs.Loads.{are_loads, recipients_of, rows_of_loads};

use crate::ids::same_site;
use crate::site_record::WideSiteRecord;
use crate::sites::is_dead_by;
use crate::starting::is_row;
use indexmap::IndexMap;
use q_model::{Id, NoMemory, Row, Site};
use std::alloc::Global;
use std::marker::Model;

/// The rows that wait, in the order of loading. A message is read on only where none of its rows
/// waits, so those of a message stand beside each other. A contract sees one list.
#[derive(Debug, Drop)]
pub(crate) struct Waiting {
    /// What is left of the last load of each message; no load is empty.
    loads: IndexMap<Id, Vec<Row>>,
    /// How many rows.
    count: u64,
    /// How many recipients stand in the rows.
    recipients: u64,
}

impl Model for Waiting {
    ghost use Rattle.std.specs.Prelude.{List};
    ghost use Rattle.q_model.specs.declared.rows.Row.{Row};

    ghost Value = { List Row };

    ghost use Rattle.std.specs.Prelude.{◌≡◌, length, true};
    ghost use Rattle.q_ledger.specs.Loads.{are_loads, recipients_of, rows_of_loads};

    ghost view = { λ w. rows_of_loads w.loads.entries };

    ghost invariant = { λ w. (are_loads w.loads.entries ≡ true)
        × (w.recipients ≡ recipients_of (rows_of_loads w.loads.entries))
        × (w.count ≡ length (rows_of_loads w.loads.entries)) };
}

/// So many more, where they can be counted.
fn count_more(count: u64, more: u64) -> Result<u64, NoMemory>
    ensures { IfOk result (λ n. n ≡ count + more) }
{
    match count.checked_add(more) {
        Some(all) => Ok(all),
        None => Err(NoMemory),
    }
}

/// How many recipients stand in these rows, where they can be counted.
fn count_recipients(rows: &[Row]) -> Result<u64, NoMemory>
    ensures { IfOk result (λ n. n ≡ recipients_of rows.now) }
{
    let mut count: u64 = 0;
    for row in rows.iter() {
        count = count_more(count, row.positions.len() as u64)?;
    }
    Ok(count)
}

/// The rows of the message's load, where it has one.
fn rows_of(loads: &IndexMap<Id, Vec<Row>>, id: Id) -> &[Row]
    requires { are_loads loads.now.entries ≡ true }
    ensures { result.now ≡ filter (λ r. id_eq r.id id) (rows_of_loads loads.now.entries) }
{
    match loads.get(&id) {
        Some(rows) => rows.as_slice(),
        None => &[],
    }
}

fn place_of_row(rows: &[Row], id: Id, site: &Site, positions: &[u32]) -> Option<usize>
    ensures { result ≡ position (is_row id site.now positions.now) rows.now }
{
    rows.iter().position(|row| is_row(row, id, site, positions))
}

/// Takes the first such row out of a load.
fn take_from(rows: &mut Vec<Row>, id: Id, site: &Site, positions: &[u32]) -> Option<Row>
    ensures row { result ≡ find (is_row id site.now positions.now) rows.old.items }
    ensures left { rows.new.items
        ≡ drop_first (is_row id site.now positions.now) rows.old.items }
{
    match place_of_row(rows, id, site, positions) {
        Some(place) => Some(rows.remove(place)),
        None => None,
    }
}

/// Takes the first such row out of its load; a load with none left goes.
fn take_row(
    loads: &mut IndexMap<Id, Vec<Row>>,
    id: Id,
    site: &Site,
    positions: &[u32],
) -> Option<Row>
    requires { are_loads loads.old.entries ≡ true }
    ensures row { result ≡ find (is_row id site.now positions.now)
        (rows_of_loads loads.old.entries) }
    ensures left { rows_of_loads loads.new.entries
        ≡ drop_first (is_row id site.now positions.now) (rows_of_loads loads.old.entries) }
    ensures loads { are_loads loads.new.entries ≡ true }
{
    match loads.get_mut(&id) {
        Some(rows) => {
            let row = take_from(rows, id, site, positions);
            if rows.as_slice().is_empty() {
                let _ = loads.shift_remove(&id);
                return row;
            }
            row
        }
        None => None,
    }
}

/// Adds a load.
fn add_load(loads: &mut IndexMap<Id, Vec<Row>>, id: Id, rows: Vec<Row>) -> Result<(), NoMemory>
    requires loads { are_loads loads.old.entries ≡ true }
    requires own { list_all (λ r. id_eq r.id id) rows.items ≡ true }
    requires some { has_none rows.items ≡ false }
    requires fresh { list_any (λ r. id_eq r.id id) (rows_of_loads loads.old.entries) ≡ false }
    ensures rows { OnOk result (rows_of_loads loads.new.entries
        ≡ rows_of_loads loads.old.entries ++ rows.items) }
    ensures loads { are_loads loads.new.entries ≡ true }
    ensures same { OnErr result (loads.new.entries ≡ loads.old.entries) }
{
    loads.insert(id, rows)?;
    Ok(())
}

pub(crate) fn waits_among(rows: &[Row], site: &Site) -> bool
    ensures { result ≡ list_any (λ r. site_eq r.site site.now) rows.now }
{
    rows.iter().any(|row| same_site(&row.site, site))
}

fn first_dead_among<'a>(rows: &'a [Row], sites: &[WideSiteRecord]) -> Option<&'a Row>
    ensures { option_copied result ≡ find (λ r. is_dead_by sites.now r.site) rows.now }
{
    rows.iter().find(|row| is_dead_by(sites, &row.site))
}

/// The rows of one load after the other.
fn load_at(loads: &IndexMap<Id, Vec<Row>>, i: usize) -> &[Row]
    requires { i < length loads.now.entries }
    ensures { rows_of_loads (take (i + 1) loads.now.entries)
        ≡ rows_of_loads (take i loads.now.entries) ++ result.now }
{
    loads[i].as_slice()
}

impl Waiting {
    pub(crate) fn new(alloc: Global) -> Waiting
        ensures { result ≡ [] }
    {
        Waiting {
            loads: IndexMap::new(alloc),
            count: 0,
            recipients: 0,
        }
    }

    pub(crate) fn clear(&mut self)
        ensures { self.new ≡ [] }
    {
        self.loads.clear();
        self.count = 0;
        self.recipients = 0;
    }

    /// How many rows wait.
    pub(crate) fn len(&self) -> u64
        ensures { result ≡ length self.now }
    {
        self.count
    }

    /// How many recipients stand in the rows.
    pub(crate) fn recipients(&self) -> u64
        ensures { result ≡ recipients_of self.now }
    {
        self.recipients
    }

    /// The rows of the message.
    pub(crate) fn of(&self, id: Id) -> &[Row]
        ensures { result.now ≡ filter (λ r. id_eq r.id id) self.now }
    {
        rows_of(&self.loads, id)
    }

    /// Whether a row of the message waits.
    pub(crate) fn has(&self, id: Id) -> bool
        ensures { result ≡ list_any (λ r. id_eq r.id id) self.now }
    {
        !self.of(id).is_empty()
    }

    /// The message's load comes, where none of its rows waits.
    pub(crate) fn add(&mut self, id: Id, rows: Vec<Row>) -> Result<(), NoMemory>
        requires own { list_all (λ r. id_eq r.id id) rows.items ≡ true }
        ensures added { list_any (λ r. id_eq r.id id) self.old ≡ false
            → OnOk result (self.new ≡ self.old ++ rows.items) }
        ensures same { OnErr result (self.new ≡ self.old) }
    {
        if rows.is_empty() || self.has(id) {
            return Ok(());
        }
        let recipients = count_more(self.recipients, count_recipients(&rows)?)?;
        let count = count_more(self.count, rows.len() as u64)?;
        add_load(&mut self.loads, id, rows)?;
        self.recipients = recipients;
        self.count = count;
        Ok(())
    }

    /// Takes the first such row out.
    pub(crate) fn take(&mut self, id: Id, site: &Site, positions: &[u32]) -> Option<Row>
        ensures row { result ≡ find (is_row id site.now positions.now) self.old }
        ensures left { self.new ≡ drop_first (is_row id site.now positions.now) self.old }
    {
        match take_row(&mut self.loads, id, site, positions) {
            Some(row) => {
                self.recipients = self.recipients.saturating_sub(row.positions.len() as u64);
                self.count = self.count.saturating_sub(1);
                Some(row)
            }
            None => None,
        }
    }

    /// Whether a row waits at the site.
    pub(crate) fn waits_at(&self, site: &Site) -> bool
        ensures { result ≡ list_any (λ r. site_eq r.site site.now) self.now }
    {
        for i in 0..self.loads.len() {
            if waits_among(load_at(&self.loads, i), site) {
                return true;
            }
        }
        false
    }

    /// The first row at a site that is dead by these records.
    pub(crate) fn first_at_dead_site(&self, sites: &[WideSiteRecord]) -> Option<&Row>
        ensures { option_copied result ≡ find (λ r. is_dead_by sites.now r.site) self.now }
    {
        for i in 0..self.loads.len() {
            match first_dead_among(load_at(&self.loads, i), sites) {
                Some(row) => return Some(row),
                None => {}
            }
        }
        None
    }
}
