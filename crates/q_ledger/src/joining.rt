//! Recipients that were read come to wait: the message joins lines, or leaves those in which it has
//! nothing left, and its sites get records. Where memory runs out nothing changes, so all that is
//! new is made before anything is put in its place.
ghost use Rattle.std.specs.Prelude.{◌≡◌, ◌&&◌, ◌<◌, ◌==◌, [], false, IfOk, length, map, not, OnErr, OnOk, slice_get, Some, true};
ghost use Rattle.std.specs.List.{list_all, list_any};
ghost use Rattle.q_model.specs.Ids.{id_eq};
ghost use Rattle.q_model.specs.Loads.{join_lines, joins};
ghost use Rattle.q_model.specs.Memory.{has_waiting};
ghost use Rattle.q_model.specs.declared.rows.Row.{Row};
ghost use Rattle.q_ledger.specs.Following.{ChangesIn};
ghost use Rattle.q_ledger.specs.Loading.{has_record, new_sites, read_up, rows_joined, rows_of_load, rows_read, slot_read, with_site};
ghost use Rattle.q_ledger.specs.Tidying.{AtPlace};
ghost use Rattle.q_ledger.specs.Worlds.{world_of};

use crate::admitted::Slot;
use crate::batches::load_rows;
use crate::ids::{same_id, same_site};
use crate::ledger::Ledger;
use crate::line::Line;
use crate::site_record::WideSiteRecord;
use crate::world::World;
use q_model::{Entry, Id, NoMemory, Row, Site};
use q_settings::Params;
use std::alloc::Global;

fn has_record(sites: &[WideSiteRecord], site: &Site) -> bool
    ensures { result ≡ has_record sites.now site.now }
{
    sites.iter().any(|noted| same_site(&noted.site, site))
}

/// Adds a record of the site to the new ones, where it has none.
fn add_site(
    fresh: &mut Vec<WideSiteRecord>,
    records: &[WideSiteRecord],
    site: &Site,
    params: &Params,
) -> Result<(), NoMemory>
    ensures { OnOk result (fresh.new.items ≡ with_site params.now records.now site.now
        fresh.old.items) }
{
    if has_record(records, site) || has_record(fresh, site) {
        return Ok(());
    }
    fresh.push(WideSiteRecord::new(*site, params))?;
    Ok(())
}

fn site_of(rows: &[Row], i: usize) -> Site
    requires { i < length rows.now }
    ensures { (r : Row) → slice_get rows.now i ≡ Some r → result ≡ r.site }
{
    rows[i].site
}

/// The records of the sites of these rows that have none.
fn new_sites(
    alloc: Global,
    records: &[WideSiteRecord],
    rows: &[Row],
    params: &Params,
) -> Result<Vec<WideSiteRecord>, NoMemory>
    ensures { IfOk result (λ fresh. fresh.items ≡ new_sites params.now records.now [] rows.now) }
{
    let mut fresh = Vec::new(alloc);
    for i in 0..rows.len() {
        let site = site_of(rows, i);
        add_site(&mut fresh, records, &site, params)?;
    }
    Ok(fresh)
}

fn has_row_at(rows: &[Row], transport: usize) -> bool
    ensures { result ≡ list_any (λ r. r.site.transport == transport) rows.now }
{
    rows.iter()
        .any(|row| usize::from(row.site.transport) == transport)
}

fn has_job(ids: &[Id], id: Id) -> bool
    ensures { result ≡ list_any (id_eq id) ids.now }
{
    ids.iter().any(|other| same_id(id, *other))
}

/// Whether the message has one of these rows at the transport, and isn't one of these.
fn joins(ids: &[Id], id: Id, rows: &[Row], transport: usize) -> bool
    ensures { result ≡ (list_any (λ r. r.site.transport == transport) rows.now
        && not (list_any (id_eq id) ids.now)) }
{
    has_row_at(rows, transport) && !has_job(ids, id)
}

/// These jobs, and the message where it joins them.
fn joined_jobs(
    alloc: Global,
    ids: &[Id],
    id: Id,
    rows: &[Row],
    transport: usize,
) -> Result<Vec<Id>, NoMemory>
    ensures { IfOk result (λ joined. joined.items ≡ joins id rows.now (transport, ids.now)) }
{
    let mut joined = Vec::new(alloc);
    joined.extend_from_slice(ids)?;
    if joins(ids, id, rows, transport) {
        joined.push(id)?;
    }
    Ok(joined)
}

fn joined_at(
    alloc: Global,
    lines: &[Line],
    id: Id,
    rows: &[Row],
    transport: usize,
) -> Result<Line, NoMemory>
    requires { transport < length lines.now }
    ensures { IfOk result (λ line. AtPlace lines.now transport
        (λ ids. line ≡ joins id rows.now (transport, ids))) }
{
    let line = &lines[transport];
    let ids = joined_jobs(alloc, line.jobs(), id, rows, transport)?;
    Ok(Line { ids })
}

/// The lines, where the message has joined those that these rows wait for.
fn joined_lines(alloc: Global, lines: &[Line], id: Id, rows: &[Row]) -> Result<Vec<Line>, NoMemory>
    ensures { IfOk result (λ joined. joined.items ≡ join_lines id rows.now lines.now) }
{
    let mut joined = Vec::new(alloc);
    for transport in 0..lines.len() {
        let line = joined_at(alloc, lines, id, rows, transport)?;
        joined.push(line)?;
    }
    Ok(joined)
}

impl Slot {
    fn read_up_to(&mut self, id: Id, to: u32)
        ensures { self.new ≡ slot_read id to self.old }
    {
        if same_id(self.id, id) {
            self.unread = to;
        }
    }
}

fn read_up_to(slots: &mut [Slot], id: Id, to: u32)
    ensures { slots.new ≡ map (slot_read id to) slots.old }
{
    for slot in slots.iter_mut() {
        slot.read_up_to(id, to);
    }
}

impl Ledger {
    fn read_up_to(&mut self, id: Id, to: u32)
        ensures { self.new ≡ read_up id to self.old }
    {
        read_up_to(&mut self.admitted, id, to);
    }

    /// The rows that a load of this message makes.
    fn rows_of_load(
        &self,
        alloc: Global,
        world: &World,
        id: Id,
        from: u32,
        to: u32,
    ) -> Result<Vec<Row>, NoMemory>
        ensures { IfOk result (λ rows. rows.items
            ≡ rows_of_load (world_of world.now) self.now id from to) }
    {
        match self.book.message(id) {
            Some(message) => load_rows(alloc, world, message, from, to),
            None => Ok(Vec::new(alloc)),
        }
    }

    /// Takes these rows of the message in.
    fn join_rows(
        &mut self,
        alloc: Global,
        params: &Params,
        id: Id,
        rows: Vec<Row>,
    ) -> Result<(), NoMemory>
        requires own { list_all (λ r. id_eq r.id id) rows.items ≡ true }
        ensures joined { has_waiting self.old.ledger id ≡ false
            → OnOk result (self.new ≡ rows_joined params.now id rows.items self.old) }
        ensures lack { OnErr result (self.new ≡ self.old) }
    {
        let mut fresh = new_sites(alloc, &self.sites, &rows, params)?;
        let lines = joined_lines(alloc, &self.lines, id, &rows)?;
        self.sites.reserve(fresh.len())?;
        self.waiting.add(id, rows)?;
        let _ = self.sites.append(&mut fresh);
        self.lines = lines;
        Ok(())
    }

    /// Takes these rows in, of the message that has been read up to this position.
    fn read_rows(
        &mut self,
        alloc: Global,
        params: &Params,
        id: Id,
        to: u32,
        rows: Vec<Row>,
    ) -> Result<(), NoMemory>
        requires own { list_all (λ r. id_eq r.id id) rows.items ≡ true }
        ensures read { has_waiting self.old.ledger id ≡ false
            → OnOk result (self.new ≡ rows_read params.now id to rows.items self.old) }
        ensures lack { OnErr result (self.new ≡ self.old) }
    {
        let count = rows.len();
        self.join_rows(alloc, params, id, rows)?;
        self.count_rows(id, count, 0);
        self.read_up_to(id, to);
        Ok(())
    }

    /// The message's next recipients are read, up to this position.
    pub(crate) fn load(
        &mut self,
        alloc: Global,
        world: &World,
        id: Id,
        from: u32,
        to: u32,
    ) -> Result<(), NoMemory>
        ensures changed { OnOk result (ChangesIn (world_of world.now) self.old
            (Entry.Load id from to) self.new) }
        ensures lack { OnErr result (self.new ≡ self.old) }
    {
        let rows = self.rows_of_load(alloc, world, id, from, to)?;
        self.total_rows(rows.len());
        self.read_rows(alloc, &world.params, id, to, rows)?;
        self.tidy_lines(id);
        Ok(())
    }
}
