//! The machine's clock.
ghost use Rattle.std.specs.Prelude.{◌≡◌, ◌≤◌, None};
ghost use Rattle.q_stream.specs.Clocks.{AddsMoment, last_moment};

use crate::Clock;
use q_model::{LAST_MOMENT, Moment};
use std::io;
use std::time::{Clock as SystemClock, SystemTime, UNIX_EPOCH};

/// The machine's clock. It tells nothing of what it gave. Where the machine's fails, or stands
/// before the epoch, the moment given last is given again, and 0 at first.
#[derive(Drop)]
pub struct RealClock<R: SystemClock + Drop> {
    system: R,
    last: Moment,
}

impl<R: SystemClock + Drop> RealClock<R> {
    pub fn new(system: R) -> RealClock<R>
        ensures last { result.last ≡ 0 }
    {
        RealClock { system, last: 0 }
    }
}

// The seconds since the epoch, where the system tells them.
fn seconds<R: SystemClock>(system: &R) -> Option<Moment> {
    let now = SystemTime::now(system).ok()?;
    let since = now.duration_since(UNIX_EPOCH).ok()?;
    Some(since.as_secs())
}

impl<R: SystemClock + Drop> Clock for RealClock<R> {
    ghost use Rattle.std.specs.Prelude.{None};

    ghost given = { λ _. None };

    fn now(&mut self) -> Moment
        ensures within { result ≤ last_moment }
        ensures given { AddsMoment None None result }
    {
        let moment = seconds(&self.system).unwrap_or(self.last);
        self.last = LAST_MOMENT.min(moment);
        self.last
    }
}
