//! What an engine tells of its life: the time, its deliveries and what it counts.
//!
//! Each answer is that of the ledger with which the engine agrees; what is told of a delivery is that
//! of the core, whether a ledger is known or not. No call is an error, and none touches the host.
ghost use Rattle.std.specs.Prelude.{◌≡◌, ◌≤◌, ◌-◌, ◌^◌, map, min, nat_lt, option_copied, option_map};
ghost use Rattle.q_core.specs.Queries.{flight_in, flight_shown};
ghost use Rattle.q_engine.specs.Refusals.{ForAgreed};
ghost use Rattle.q_engine.specs.Stands.{preempts};
ghost use Rattle.q_model.specs.Deliveries.{flight_of};
ghost use Rattle.q_model.specs.Lists.{least};
ghost use Rattle.q_model.specs.Past.{starts};

use crate::engine::Engine;
use q_core::Flight;
use q_model::Moment;

impl Engine {
    /// The greatest moment that was given in this life, in seconds; 0 for none.
    pub fn now(&self) -> Moment
        ensures ledger { ForAgreed self.now (λ w l. result ≡ l.now) }
        ensures within { result ≤ 999990000000 }
    {
        self.core.now()
    }

    /// The number of this life's last delivery, 0 for none.
    pub fn last_number(&self) -> u64
        ensures { ForAgreed self.now (λ w l. result ≡ starts l) }
    {
        self.core.last_number()
    }

    /// The delivery of this number, where it is in flight.
    pub fn flight(&self, number: u64) -> Option<Flight>
        ensures ledger { ForAgreed self.now (λ w l. result
            ≡ option_map flight_shown (flight_of l number)) }
        ensures own { result ≡ option_map flight_shown (flight_in self.now.core.value number) }
    {
        self.core.flight(number)
    }

    /// The positions of the delivery's recipients, where it is in flight.
    pub fn positions(&self, number: u64) -> Option<&[u32]>
        ensures ledger { ForAgreed self.now (λ w l. option_copied result ≡ option_map
            (λ f. f.row.positions) (flight_of l number)) }
        ensures own { option_copied result
            ≡ option_map (λ f. f.row.positions) (flight_in self.now.core.value number) }
    {
        self.core.entry_positions(number)
    }

    /// The least number of a delivery in flight.
    pub fn least_flight(&self) -> Option<u64>
        ensures { ForAgreed self.now (λ w l. result ≡ least nat_lt (map
            (λ f. f.number) l.flights)) }
    {
        self.core.least_flight()
    }

    /// How often a job went before another in this life, up to 2^64 - 1.
    pub fn preempts(&self) -> u64
        ensures { ForAgreed self.now (λ w l. result ≡ min (preempts l) (2 ^ 64 - 1)) }
    {
        self.preempts
    }
}
