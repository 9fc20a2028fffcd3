//! What the core tells of the life: its clock, and the deliveries in flight.
ghost use Rattle.std.specs.Prelude.{◌≡◌, ◌≤◌, find, IsTrue, map, nat_lt, option_map, slice_get, Some};
ghost use Rattle.std.specs.Option.{option_copied};
ghost use Rattle.q_core.specs.Agrees.{ForLedgers};
ghost use Rattle.q_model.specs.Memory.{is_admitted};
ghost use Rattle.q_core.specs.Held.{is_admitted_in};
ghost use Rattle.q_core.specs.Queries.{expired_in, flight_in, flight_shown, record_behind, slot_expired_in, skipped_in};
ghost use Rattle.q_flights.specs.Flying.{delivery_shown, started_earlier};
ghost use Rattle.q_model.specs.Book.{message_of};
ghost use Rattle.q_model.specs.Deliveries.{flight_of};
ghost use Rattle.q_model.specs.Lists.{least};
ghost use Rattle.q_model.specs.Message.{Message};
ghost use Rattle.q_model.specs.Past.{starts};
ghost use Rattle.q_model.specs.Times.{is_expired};

use crate::names::{same_id, same_site};
use crate::state::{Core, Question};
use q_backoff::expired;
use q_dest::WideSiteRecord;
use q_flights::DeliveryRef;
use q_model::{Id, Moment, Row, Site};
use q_pool::Slot;
use std::marker::Model;

/// The message and the site of a delivery in flight. A contract sees it as the record of
/// the two.
#[derive(Clone, Copy, Debug)]
pub struct Flight {
    pub id: Id,
    pub site: Site,
}

impl Model for Flight {
    ghost use Rattle.q_core.specs.Queries.{Flight as FlightValue};

    ghost Value = { FlightValue };

    ghost view = { λ f. record { id = f.id; site = f.site } };

    ghost inverse = { λ v. record { id = v.id; site = v.site } };
}

impl Core {
    /// The greatest moment that was given in this life, 0 for none.
    pub fn now(&self) -> Moment
        ensures value { result ≡ self.now.clock.seconds }
        ensures ledger { ForLedgers self.now (λ w l. result ≡ l.now) }
        ensures within { result ≤ 999990000000 }
    {
        self.clock.seconds
    }

    /// Whether an `At` came in this life.
    pub fn is_timed(&self) -> bool
        ensures value { result ≡ self.now.timed }
        ensures ledger { ForLedgers self.now (λ w l. result ≡ l.timed) }
    {
        self.timed
    }

    /// Whether the message is in memory.
    pub fn is_admitted(&self, id: Id) -> bool
        ensures value { result ≡ is_admitted_in self.now id }
        ensures ledger { ForLedgers self.now (λ w l. result ≡ is_admitted l id) }
    {
        self.has_slot(id)
    }

    /// The first record of a site that has recipients waiting or in flight, or is dead.
    pub fn first_site(&self) -> Option<WideSiteRecord>
        ensures { result ≡ slice_get self.now.sites 0 }
    {
        self.sites.first()
    }

    /// The record right behind that of a site.
    pub fn site_behind(&self, site: &Site) -> Option<WideSiteRecord>
        ensures { result ≡ record_behind site.now self.now.sites }
    {
        self.sites.behind(site)
    }

    /// The number of this life's last start, 0 for none.
    pub fn last_number(&self) -> u64
        ensures { ForLedgers self.now (λ w l. result ≡ starts l) }
    {
        self.starts
    }

    pub(crate) fn delivery(&self, number: u64) -> Option<DeliveryRef<'_>>
        ensures { option_map delivery_shown result ≡ flight_in self.now number }
    {
        self.flights.get(number)
    }

    /// The delivery of this number, where it is in flight.
    pub fn flight(&self, number: u64) -> Option<Flight>
        ensures value { result ≡ option_map flight_shown (flight_in self.now number) }
        ensures ledger { ForLedgers self.now (λ w l. result
            ≡ option_map flight_shown (flight_of l number)) }
    {
        match self.delivery(number) {
            Some(delivery) => Some(Flight {
                id: delivery.row.id,
                site: *delivery.row.site,
            }),
            None => None,
        }
    }

    fn first_number(&self) -> Option<u64>
        ensures { result ≡ option_map (λ f. f.number) (least
            started_earlier self.now.flights) }
    {
        match self.flights.first() {
            Some(flight) => Some(flight.number),
            None => None,
        }
    }

    /// The least number of a delivery in flight.
    pub fn least_flight(&self) -> Option<u64>
        ensures { ForLedgers self.now (λ w l. result ≡ least nat_lt (map
            (λ f. f.number) l.flights)) }
    {
        self.first_number()
    }

    /// The positions of the delivery of this number, where it is in flight.
    pub fn entry_positions(&self, number: u64) -> Option<&[u32]>
        ensures value { option_copied result
            ≡ option_map (λ f. f.row.positions) (flight_in self.now number) }
        ensures ledger { ForLedgers self.now (λ w l. option_copied result ≡ option_map
            (λ f. f.row.positions) (flight_of l number)) }
    {
        match self.delivery(number) {
            Some(delivery) => Some(delivery.row.positions),
            None => None,
        }
    }

    /// The positions of the row that was put off last, where `entry` is the number of its `Skip`;
    /// None for every other number.
    pub fn row_positions(&self, entry: u32) -> Option<&[u32]>
        ensures { option_copied result ≡ skipped_in self.now entry }
    {
        if self.skips == entry {
            Some(self.skipped.get(0))
        } else {
            None
        }
    }

    fn slot_expired(&self, slot: &Slot) -> bool
        ensures { result ≡ slot_expired_in self.now slot.now }
    {
        expired(
            self.clock.seconds,
            slot.arrival,
            slot.null_sender,
            &self.params,
        )
    }

    pub(crate) fn id_expired(&self, id: Id) -> bool
        ensures { result ≡ expired_in self.now id }
    {
        match self.slot(id) {
            Some(slot) => self.slot_expired(slot),
            None => false,
        }
    }

    /// Whether the message, which is in memory, is as old as its lifetime.
    pub fn expired(&self, id: Id) -> bool
        requires { IsTrue (is_admitted_in self.now id) }
        ensures { ForLedgers self.now (λ w l. (m : Message) → message_of l.book id ≡ Some m
            → result ≡ is_expired w l.now m) }
    {
        self.id_expired(id)
    }
}
