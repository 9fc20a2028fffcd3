//! What a drain told of its deliveries, counted from the lines of its trace as they are written.
use crate::heard::Heard;
use q_numbers::first_word;
use std::fmt::Display;
use std::{fmt, io};

/// How many recipients were delivered to, returned for good and put off, and how many messages were
/// damaged.
#[derive(Clone, Copy, Default)]
pub(crate) struct Sums {
    delivered: u64,
    returned: u64,
    put_off: u64,
    corrupt: u64,
}

impl Sums {
    /// Whether nothing was counted.
    pub(crate) fn is_none(&self) -> bool {
        self.delivered == 0 && self.returned == 0 && self.put_off == 0 && self.corrupt == 0
    }

    // The outcomes of a reply.
    fn count_outcomes(&mut self, outcomes: &[u8]) {
        for outcome in outcomes.split(|byte| *byte == b' ') {
            match outcome {
                b"ok" => self.delivered = self.delivered.saturating_add(1),
                [b'l', b'a', b't', b'e', b'r', ..] => {
                    self.put_off = self.put_off.saturating_add(1)
                }
                _ => {}
            }
        }
    }

    // A failure that was logged; a recipient that expired was put off before.
    fn count_failure(&mut self, failure: &[u8]) {
        self.returned = self.returned.saturating_add(1);
        let mut parts = failure.split(|byte| *byte == b' ');
        if parts.any(|part| matches!(part, b"expired")) {
            self.put_off = self.put_off.saturating_sub(1);
        }
    }

    // The id, the transport and the next hop of a skip stand before its positions.
    fn count_skipped(&mut self, skip: &[u8]) {
        let positions = skip.split(|byte| *byte == b' ').skip(3).count() as u64;
        self.put_off = self.put_off.saturating_add(positions);
    }

    // A line of the trace: its first word, and what is behind it.
    fn count(&mut self, line: &[u8]) {
        let (word, behind) = first_word(line);
        let behind = behind.unwrap_or_default();
        match word {
            b"reply" => self.count_outcomes(behind),
            b"log" => self.count_failure(behind),
            b"skip" => self.count_skipped(behind),
            b"corrupt" => self.corrupt = self.corrupt.saturating_add(1),
            _ => {}
        }
    }
}

impl Display for Sums {
    fn fmt<W: fmt::Write>(&self, f: &mut fmt::Formatter<W>) -> fmt::Result {
        write!(
            f,
            "{} delivered, {} returned, {} put off, {} corrupt",
            self.delivered, self.returned, self.put_off, self.corrupt
        )
    }
}

/// An output whose lines are counted, and heard where that is asked for. Each write has whole lines.
#[derive(Drop)]
pub(crate) struct Counted<'a> {
    pub(crate) rt: HostRuntime,
    pub(crate) heard: &'a Heard,
}

impl Counted<'_> {
    // Counts what was told.
    fn count(&self, bytes: &[u8]) {
        let mut sums = self.heard.sums.get();
        for line in bytes.split(|byte| *byte == b'\n') {
            sums.count(line);
        }
        self.heard.sums.set(sums);
    }

    // Hears what was told, as long as there is memory.
    fn hear(&self, bytes: &[u8]) {
        let Some(mut flights) = self.heard.flights.take() else {
            return;
        };
        for line in bytes.split(|byte| *byte == b'\n') {
            if flights.hear(line).is_err() {
                return;
            }
        }
        self.heard.flights.set(Some(flights));
    }
}

impl Counted<'_> {
    // Hears what a queue tool told, as long as there is memory.
    fn hear_acts(&self, bytes: &[u8]) {
        let Some(mut acted) = self.heard.acted.take() else {
            return;
        };
        for line in bytes.split(|byte| *byte == b'\n') {
            if acted.hear(line).is_err() {
                return;
            }
        }
        self.heard.acted.set(Some(acted));
    }
}

impl Print for Counted<'_> {
    fn print<D: Display + Drop>(&self, value: D) -> io::Result<()> {
        self.rt.print(value)
    }

    fn println<D: Display + Drop>(&self, value: D) -> io::Result<()> {
        self.rt.println(value)
    }

    fn write_all(&self, bytes: &[u8]) -> io::Result<()> {
        self.rt.write_all(bytes)?;
        self.count(bytes);
        self.hear(bytes);
        self.hear_acts(bytes);
        Ok(())
    }
}
