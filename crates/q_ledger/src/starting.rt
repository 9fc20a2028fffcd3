//! Which waiting recipients may be sent now.
ghost use Rattle.std.specs.Prelude.{◌≡◌, ◌&&◌, ◌+◌, ◌==◌, IfOk, nat_lt};
ghost use Rattle.std.specs.List.{list_any};
ghost use Rattle.std.specs.Option.{option_copied};
ghost use Rattle.q_model.specs.Deliveries.{flights_of};
ghost use Rattle.q_ledger.specs.Spaces.{has_space, is_startable_of};
ghost use Rattle.q_model.specs.Ids.{id_eq};
ghost use Rattle.q_model.specs.Startable.{can_start, current, is_startable, line_of};
ghost use Rattle.q_model.specs.Starts.{is_row};
ghost use Rattle.q_ledger.specs.Worlds.{world_of};

use crate::accounts::Accounts;
use crate::ids::{same_id, same_positions, same_site};
use crate::ledger::Ledger;
use crate::world::World;
use q_model::{Id, NoMemory, Positions, Row, Site};
use std::alloc::Global;

/// Whether the row is this one.
pub(crate) fn is_row(row: &Row, id: Id, site: &Site, positions: &[u32]) -> bool
    ensures { result ≡ is_row id site.now positions.now row.now }
{
    same_id(row.id, id)
        && same_site(&row.site, site)
        && same_positions(row.positions.as_slice(), positions)
}

fn is_among(rows: &[Row], id: Id, site: &Site, positions: &[u32]) -> bool
    ensures { result ≡ list_any (is_row id site.now positions.now) rows.now }
{
    rows.iter().any(|row| is_row(row, id, site, positions))
}

/// A list of the same positions.
pub(crate) fn copied(alloc: Global, positions: &[u32]) -> Result<Positions, NoMemory>
    ensures { IfOk result (λ ps. ps ≡ positions.now) }
{
    let items = Vec::from_slice(alloc, positions)?;
    Ok(Positions::from_vec(items))
}

impl Ledger {
    fn has_process(&self, world: &World, transport: u8) -> bool
        ensures { result ≡ nat_lt (flights_of self.now.ledger transport)
            world.now.settings.process_limit }
    {
        self.flights_of(transport) < world.params.default_process_limit as usize
    }

    fn has_space(&self, site: &Site) -> bool
        ensures { result ≡ has_space self.now.ledger site.now }
    {
        match self.site_record(site) {
            Some(noted) => noted.has_space(self.busy(site) as u64),
            None => false,
        }
    }

    pub(crate) fn is_startable(&self, world: &World, row: &Row) -> bool
        ensures { result ≡ is_startable (world_of world.now) self.now.ledger row.now }
    {
        self.has_process(world, row.site.transport) && self.has_space(&row.site)
    }

    pub(crate) fn is_startable_of(&self, world: &World, id: Id, transport: u8, row: &Row) -> bool
        ensures { result ≡ (id_eq row.now.id id && (row.now.site.transport == transport)
            && is_startable (world_of world.now) self.now.ledger row.now) }
    {
        same_id(row.id, id) && row.site.transport == transport && self.is_startable(world, row)
    }

    /// Whether one of these rows is the job's and may be sent now.
    fn starts_among(&self, world: &World, transport: u8, id: Id, rows: &[Row]) -> bool
        ensures { result ≡ list_any
            (is_startable_of (world_of world.now) self.now.ledger transport id) rows.now }
    {
        rows.iter()
            .any(|row| self.is_startable_of(world, id, transport, row))
    }

    /// Whether the job has a row that may be sent now.
    pub(crate) fn can_start(&self, world: &World, transport: u8, id: Id) -> bool
        ensures { result ≡ can_start (world_of world.now) self.now.ledger transport id }
    {
        self.starts_among(world, transport, id, self.waiting.of(id))
    }

    /// The jobs of the transport in their order; none where it has no line.
    pub(crate) fn line(&self, transport: u8) -> &[Id]
        ensures { result.now ≡ line_of self.now.ledger transport }
    {
        match self.lines.get(usize::from(transport)) {
            Some(line) => line.jobs(),
            None => &[],
        }
    }

    /// The first job in the line with a row that may be sent now.
    fn first_able(&self, world: &World, transport: u8) -> Option<&Id>
        ensures { option_copied result ≡ current (world_of world.now) self.now.ledger transport }
    {
        self.line(transport)
            .iter()
            .find(|id| self.can_start(world, transport, **id))
    }

    /// The current job: the first in the line that can start.
    pub(crate) fn current(&self, world: &World, transport: u8) -> Option<Id>
        ensures { result ≡ current (world_of world.now) self.now.ledger transport }
    {
        if !self.has_process(world, transport) {
            return None;
        }
        self.first_able(world, transport).copied()
    }

    fn is_startable_row(
        &self,
        world: &World,
        row: &Row,
        id: Id,
        site: &Site,
        positions: &[u32],
    ) -> bool
        ensures { result ≡ (is_row id site.now positions.now row.now
            && is_startable (world_of world.now) self.now.ledger row.now) }
    {
        is_row(row, id, site, positions) && self.is_startable(world, row)
    }

    /// Whether such a row waits.
    pub(crate) fn waits(&self, id: Id, site: &Site, positions: &[u32]) -> bool
        ensures { result ≡ list_any (is_row id site.now positions.now) self.now.ledger.waiting }
    {
        is_among(self.waiting.of(id), id, site, positions)
    }

    fn is_startable_among(
        &self,
        world: &World,
        rows: &[Row],
        id: Id,
        site: &Site,
        positions: &[u32],
    ) -> bool
        ensures { result ≡ list_any (λ r. is_row id site.now positions.now r
            && is_startable (world_of world.now) self.now.ledger r) rows.now }
    {
        rows.iter().any(|row| self.is_startable_row(world, row, id, site, positions))
    }

    /// Whether such a row waits that may be sent now.
    fn waits_startable(&self, world: &World, id: Id, site: &Site, positions: &[u32]) -> bool
        ensures { result ≡ list_any (λ r. is_row id site.now positions.now r
            && is_startable (world_of world.now) self.now.ledger r) self.now.ledger.waiting }
    {
        self.is_startable_among(world, self.waiting.of(id), id, site, positions)
    }

    pub(crate) fn may_start(
        &self,
        world: &World,
        accounts: &Accounts,
        number: u64,
        id: Id,
        site: &Site,
        positions: &[u32],
    ) -> bool
        ensures { result ≡ ((number == accounts.now.starts + 1)
            && list_any (λ r. is_row id site.now positions.now r
            && is_startable (world_of world.now) self.now.ledger r) self.now.ledger.waiting) }
    {
        u128::from(number) == u128::from(accounts.starts) + 1
            && self.waits_startable(world, id, site, positions)
    }
}
