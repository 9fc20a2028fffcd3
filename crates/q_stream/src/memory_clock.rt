//! A list of moments as a clock.
ghost use Rattle.std.specs.Prelude.{◌≡◌, ◌≤◌, IfOk};
ghost use Rattle.q_stream.specs.Clocks.{AddsMoment, given_so_far, last_moment, moment_at};
ghost use Rattle.q_stream.specs.Script.{counted};

use crate::Clock;
use q_model::{LAST_MOMENT, Moment, NoMemory};
use std::alloc::Global;
use std::marker::Model;

/// A clock that gives a list of moments, one a call. The last of them stays, and an empty list
/// gives 0. It counts its calls, and tells nothing more once the count stands at 2^64 - 1.
#[derive(Drop)]
pub struct MemClock {
    moments: Vec<Moment>,
    calls: u64,
}

impl Model for MemClock {
    ghost use Rattle.q_stream.specs.Clocks.{Timetable};

    ghost Value = { Timetable };

    ghost view = { λ c. record { moments = c.moments.items; calls = c.calls } };
}

impl MemClock {
    /// A clock that will give these moments.
    pub fn new(alloc: Global, moments: &[Moment]) -> Result<MemClock, NoMemory>
        ensures { IfOk result (λ c. c ≡ record { moments = moments.now; calls = 0 }) }
    {
        let moments = Vec::from_slice(alloc, moments)?;
        Ok(MemClock { moments, calls: 0 })
    }
}

impl Clock for MemClock {
    ghost use Rattle.q_stream.specs.Clocks.{given_so_far};

    ghost given = { given_so_far };

    fn now(&mut self) -> Moment
        ensures within { result ≤ last_moment }
        ensures given { AddsMoment (given_so_far self.old) (given_so_far self.new) result }
        // What it gives is what its list says.
        ensures moment { result ≡ moment_at self.old.moments self.old.calls }
        ensures moments { self.new.moments ≡ self.old.moments }
        ensures calls { self.new.calls ≡ counted self.old.calls }
    {
        let last = self.moments.len().saturating_sub(1);
        let place = (self.calls as usize).min(last);
        self.calls = self.calls.saturating_add(1);
        match self.moments.get(place) {
            Some(moment) => LAST_MOMENT.min(*moment),
            None => 0,
        }
    }
}
