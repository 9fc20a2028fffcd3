//! What a transport does next.
ghost use Rattle.std.specs.Prelude.{◌≡◌, filter, find, IfOk, length, option_map, Some};
ghost use Rattle.std.specs.Option.{option_copied};
ghost use Rattle.q_model.specs.Choice.{is_served, last_start, next_row, started_before};
ghost use Rattle.q_model.specs.Lists.{least};
ghost use Rattle.q_ledger.specs.Best.{best_with, prefer};
ghost use Rattle.q_ledger.specs.Choosing.{choice_for_in, choice_in, choices_from, choosing_in, preempt_in, start_in};
ghost use Rattle.q_ledger.specs.Spaces.{is_startable_of};
ghost use Rattle.q_ledger.specs.Worlds.{world_of};

use crate::accounts::Accounts;
use crate::admitted::Slot;
use crate::ids::{same_id, same_site};
use crate::ledger::Ledger;
use crate::starting::copied;
use crate::world::World;
use q_model::{Entry, Id, NoMemory, Row, Served};
use std::alloc::Global;

/// Whether the message was last sent to the row's site so.
fn is_served(served: &Served, row: &Row) -> bool
    ensures { result ≡ is_served row.now served.now }
{
    same_id(served.id, row.id) && same_site(&served.site, &row.site)
}

/// The next delivery is of this row.
fn start_of(alloc: Global, accounts: &Accounts, row: &Row) -> Result<Entry, NoMemory>
    ensures { IfOk result (λ e. e ≡ start_in accounts.now row.now) }
{
    let positions = copied(alloc, row.positions.as_slice())?;
    Ok(Entry::Start {
        number: accounts.starts.saturating_add(1),
        id: row.id,
        site: row.site,
        positions,
    })
}

impl Ledger {
    fn served(&self, row: &Row) -> Option<&Served>
        ensures { option_copied result ≡ find (is_served row.now) self.now.ledger.served }
    {
        self.served.iter().find(|served| is_served(served, row))
    }

    /// The number of the message's last delivery to the row's site, 0 for none.
    fn last_start(&self, row: &Row) -> u64
        ensures { result ≡ last_start self.now.ledger row.now }
    {
        match self.served(row) {
            Some(served) => served.last,
            None => 0,
        }
    }

    /// The sooner of a row and of the one to start among those behind it.
    fn sooner<'a>(&self, row: &'a Row, next: Option<&'a Row>) -> Option<&'a Row>
        ensures { option_copied result ≡ best_with (started_before self.now.ledger)
            (Some row.now) (option_copied next.entry) }
    {
        match next {
            Some(other) => {
                if self.last_start(other) < self.last_start(row) {
                    Some(other)
                } else {
                    Some(row)
                }
            }
            None => Some(row),
        }
    }

    /// The same, where the row may be sent now.
    fn sooner_startable<'a>(
        &self,
        world: &World,
        transport: u8,
        id: Id,
        row: &'a Row,
        next: Option<&'a Row>,
    ) -> Option<&'a Row>
        ensures { option_copied result ≡ prefer
            (is_startable_of (world_of world.now) self.now.ledger transport id)
            (started_before self.now.ledger) row.now (option_copied next.entry) }
    {
        if self.is_startable_of(world, id, transport, row) {
            self.sooner(row, next)
        } else {
            next
        }
    }

    /// The one of these rows that the job starts next.
    fn next_among<'a>(
        &self,
        world: &World,
        transport: u8,
        id: Id,
        rows: &'a [Row],
    ) -> Option<&'a Row>
        ensures { option_copied result ≡ least (started_before self.now.ledger)
            (filter (is_startable_of (world_of world.now) self.now.ledger transport id) rows.now) }
    {
        let mut next = None;
        let mut i = rows.len();
        while i > 0 {
            i -= 1;
            next = self.sooner_startable(world, transport, id, &rows[i], next);
        }
        next
    }

    /// The row that the job starts next: of the site that it has not started at, or longest ago;
    /// among equals the first read.
    fn next_row(&self, world: &World, transport: u8, id: Id) -> Option<&Row>
        ensures { option_copied result
            ≡ next_row (world_of world.now) self.now.ledger transport id }
    {
        self.next_among(world, transport, id, self.waiting.of(id))
    }

    /// The job starts its next row.
    fn start_next(
        &self,
        alloc: Global,
        world: &World,
        accounts: &Accounts,
        transport: u8,
        id: Id,
    ) -> Result<Option<Entry>, NoMemory>
        ensures { IfOk result (λ o. o ≡ option_map (start_in accounts.now)
            (next_row (world_of world.now) self.now.ledger transport id)) }
    {
        match self.next_row(world, transport, id) {
            Some(row) => {
                let start = start_of(alloc, accounts, row)?;
                Ok(Some(start))
            }
            None => Ok(None),
        }
    }

    /// The message preempts, by all that it has left.
    fn preempt_by(&self, transport: u8, parent: Id, child: &Slot) -> Entry
        ensures { Some result ≡ preempt_in self.now transport parent child.now }
    {
        let need = self
            .rest(child.id, transport)
            .min(u64::from(child.recipients));
        Entry::Preempt {
            child: child.id,
            parent,
            transport,
            need: need as u32,
        }
    }

    /// What the current job of a transport leads to.
    fn choice_by(
        &self,
        alloc: Global,
        world: &World,
        accounts: &Accounts,
        transport: u8,
        parent: Id,
    ) -> Result<Option<Entry>, NoMemory>
        ensures { IfOk result
            (λ o. o ≡ choice_for_in world.now self.now accounts.now transport parent) }
    {
        match self.best(world, accounts, transport, parent) {
            Some(child) => Ok(Some(self.preempt_by(transport, parent, &child))),
            None => self.start_next(alloc, world, accounts, transport, parent),
        }
    }

    fn choice(
        &self,
        alloc: Global,
        world: &World,
        accounts: &Accounts,
        transport: u8,
    ) -> Result<Option<Entry>, NoMemory>
        ensures { IfOk result (λ o. o ≡ choice_in world.now self.now accounts.now transport) }
    {
        match self.current(world, transport) {
            Some(parent) => self.choice_by(alloc, world, accounts, transport, parent),
            None => Ok(None),
        }
    }

    /// The choice of the first of so many transports that has one.
    fn first_choice(
        &self,
        alloc: Global,
        world: &World,
        accounts: &Accounts,
        transports: u8,
    ) -> Result<Option<Entry>, NoMemory>
        ensures { IfOk result
            (λ o. o ≡ choices_from world.now self.now accounts.now 0 transports) }
    {
        for transport in 0..transports {
            if let Some(entry) = self.choice(alloc, world, accounts, transport)? {
                return Ok(Some(entry));
            }
        }
        Ok(None)
    }

    /// The choice of the first transport that has one; 2^48 deliveries end a life.
    pub(crate) fn next_choice(
        &self,
        alloc: Global,
        world: &World,
        accounts: &Accounts,
    ) -> Result<Option<Entry>, NoMemory>
        ensures { IfOk result (λ o. o ≡ choosing_in world.now self.now accounts.now
            (length (world_of world.now).table.transports)) }
    {
        if accounts.starts < 1 << 48 {
            self.first_choice(alloc, world, accounts, world.table.transports())
        } else {
            Ok(None)
        }
    }
}
