//! Which waiting row of a message is sent next at a transport.
ghost use Rattle.std.specs.Prelude.{◌≡◌, ◌<◌, ◌^◌, nat_lt, option_map};
ghost use Rattle.q_core.specs.Starting.{can_start_in, flights_at, has_room_in, is_startable_in, last_start_in, next_row_in, next_row_of, rows_for, start_in, sooner_row};
ghost use Rattle.q_held.specs.Held.{rows_of};
ghost use Rattle.q_positions.specs.Rows.{row_shown};

use crate::decision::Decision;
use crate::names::same_id;
use crate::rows::first_row;
use crate::state::Core;
use q_held::Rows;
use q_model::{Id, Site};
use q_positions::RowRef;

impl Core {
    pub(crate) fn flights_of(&self, transport: u8) -> usize
        ensures { result ≡ flights_at self.now transport }
    {
        self.flights.at(transport)
    }

    /// Whether the transport may begin a delivery more.
    pub(crate) fn has_process(&self, transport: u8) -> bool
        ensures { result ≡ nat_lt (flights_at self.now transport) self.now.params.process_limit }
    {
        self.flights_of(transport) < self.params.default_process_limit as usize
    }

    /// Whether the site is alive, with fewer deliveries in flight than its window.
    fn has_room(&self, site: &Site) -> bool
        ensures { result ≡ has_room_in self.now site.now }
    {
        self.sites.has_space(site)
    }

    fn is_startable(&self, row: RowRef<'_>) -> bool
        ensures { result ≡ is_startable_in self.now (row_shown row.entry) }
    {
        let site = row.site;
        self.has_process(site.transport) && self.has_room(site)
    }

    fn is_startable_for(&self, id: Id, transport: u8, row: RowRef<'_>) -> bool
        ensures { result ≡ rows_for self.now id transport (row_shown row.entry) }
    {
        let site = row.site;
        same_id(row.id, id) && site.transport == transport && self.is_startable(row)
    }

    /// The number of the message's last delivery to the row's site, 0 for none.
    fn last_start(&self, row: RowRef<'_>) -> u64
        ensures { result ≡ last_start_in self.now (row_shown row.entry) }
    {
        self.schedule.stand_apart();
        self.schedule.last(row.id, row.site)
    }

    /// The row that was found before, or this one, where it may be sent now and starts sooner.
    fn sooner<'a>(
        &self,
        id: Id,
        transport: u8,
        next: Option<RowRef<'a>>,
        row: RowRef<'a>,
    ) -> Option<RowRef<'a>>
        ensures { option_map row_shown result ≡ sooner_row self.now transport id
            (option_map row_shown next.entry) (row_shown row.entry) }
    {
        if !self.is_startable_for(id, transport, row) {
            return next;
        }
        match next {
            Some(other) if self.last_start(row) >= self.last_start(other) => Some(other),
            _ => Some(row),
        }
    }

    /// The row of the message that starts next at the transport. It is of the site that the
    /// message was sent to longest ago or never; among equals it is the first read. While rows may
    /// be left in another order than that in which they were read, a walk over all finds it.
    fn next_row(&self, id: Id, transport: u8) -> Option<RowRef<'_>>
        ensures { option_map row_shown result ≡ next_row_in self.now transport id }
    {
        if !self.has_process(transport) {
            return None;
        }
        self.schedule.stand_apart();
        if self.schedule.has_passed() {
            return next_row_among(self, &self.waiting, id, transport);
        }
        let Some(peer) = self.schedule.next(usize::from(transport), id, &self.sites) else {
            return None;
        };
        first_row(&self.waiting, peer.id, &peer.site)
    }

    /// Whether the message has a row at the transport that may be sent now.
    pub(crate) fn can_start(&self, id: Id, transport: u8) -> bool
        ensures { result ≡ can_start_in self.now transport id }
    {
        if !self.has_process(transport) {
            return false;
        }
        self.schedule.stand_apart();
        match self.schedule.next(usize::from(transport), id, &self.sites) {
            Some(_) => true,
            None => false,
        }
    }

    /// The next delivery of the message at the transport.
    pub(crate) fn start(&self, id: Id, transport: u8) -> Option<Decision>
        requires { self.now.starts < 2 ^ 48 }
        ensures { result ≡ start_in self.now transport id }
    {
        match self.next_row(id, transport) {
            Some(row) => Some(Decision::Start {
                number: self.starts + 1,
                id: row.id,
                site: *row.site,
            }),
            None => None,
        }
    }
}

/// The row of the message that starts next at the transport, of these rows.
fn next_row_among<'a>(
    core: &'a Core,
    waiting: &'a Rows,
    id: Id,
    transport: u8,
) -> Option<RowRef<'a>>
    ensures { option_map row_shown result
        ≡ next_row_of core.now transport id (rows_of waiting.now.items) }
{
    waiting.stand_apart();
    let mut next = None;
    let mut at = waiting.first();
    while let Some(number) = at {
        let Some(row) = waiting.get(number) else {
            return next;
        };
        next = core.sooner(id, transport, next, row);
        at = waiting.next(number);
    }
    next
}
