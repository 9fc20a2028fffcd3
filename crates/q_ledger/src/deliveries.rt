//! Deliveries in flight, counted by transport and by site.
ghost use Rattle.std.specs.Prelude.{◌≡◌};
ghost use Rattle.std.specs.Option.{option_copied};
ghost use Rattle.q_model.specs.Deliveries.{busy, flight_of, flights_of};

use crate::ids::same_site;
use crate::ledger::Ledger;
use q_model::{Delivery, Site};

impl Ledger {
    /// How many deliveries are in flight at the transport.
    pub(crate) fn flights_of(&self, transport: u8) -> usize
        ensures { result ≡ flights_of self.now.ledger transport }
    {
        self.flights
            .iter()
            .filter(|flight| flight.row.site.transport == transport)
            .count()
    }

    /// How many are in flight at the site.
    pub(crate) fn busy(&self, site: &Site) -> usize
        ensures { result ≡ busy self.now.ledger site.now }
    {
        self.flights
            .iter()
            .filter(|flight| same_site(&flight.row.site, site))
            .count()
    }

    pub(crate) fn flight(&self, number: u64) -> Option<&Delivery>
        ensures { option_copied result ≡ flight_of self.now.ledger number }
    {
        self.flights.iter().find(|flight| flight.number == number)
    }
}
