//! A part of a run, and how fast it is.
use crate::life::Life;
use std::io;
use std::time::{Duration, Instant};

/// A part that is measured ends after so many seconds.
const SECONDS: u64 = 10;

/// When a part began, and how many decisions were taken before.
#[derive(Drop)]
pub(crate) struct Lap {
    started: Instant,
    before: u64,
}

/// How many of something come in a second.
fn speed(count: u64, spent: Duration) -> u64 {
    let micros = spent
        .as_secs()
        .saturating_mul(1_000_000)
        .saturating_add(u64::from(spent.subsec_micros()));
    count.saturating_mul(1_000_000) / micros.max(1)
}

impl Lap {
    pub(crate) fn begin(rt: HostRuntime, life: &Life) -> io::Result<Lap> {
        Ok(Lap {
            started: Instant::now(&rt)?,
            before: life.decisions(),
        })
    }

    /// Whether it took ten seconds.
    pub(crate) fn is_long(&self, rt: HostRuntime) -> io::Result<bool> {
        Ok(self.started.elapsed(&rt)?.as_secs() >= SECONDS)
    }

    /// Prints how fast it was.
    pub(crate) fn report(&self, rt: HostRuntime, name: &str, life: &Life) -> io::Result<()> {
        let spent = self.started.elapsed(&rt)?;
        let decisions = life.decisions().saturating_sub(self.before);
        let speed = speed(decisions, spent);
        println!(rt; "{name}: {decisions} decisions, {speed} decisions a second")
    }
}
