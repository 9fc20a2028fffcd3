//! Which deliveries are in flight, and whether a life has a moment, by the lines that were told.
use q_numbers::{first_word, read_number};
use std::alloc::{AllocError, Global};

/// A delivery in flight: its number, and how many recipients it has.
#[derive(Clone, Copy)]
struct Flight {
    number: u64,
    recipients: usize,
}

/// What a life has told so far.
#[derive(Drop)]
pub(crate) struct Flights {
    is_timed: bool,
    flights: Vec<Flight>,
}

/// The number in front of a text, and what stands behind it.
fn numbered(text: &[u8]) -> Option<(u64, &[u8])> {
    let (word, behind) = first_word(text);
    Some((read_number(word, 0, u64::MAX)?, behind.unwrap_or_default()))
}

impl Flights {
    /// Nothing is told yet.
    pub(crate) fn new(alloc: Global) -> Flights {
        Flights {
            is_timed: false,
            flights: Vec::new(alloc),
        }
    }

    /// Whether the life has a moment.
    pub(crate) fn is_timed(&self) -> bool {
        self.is_timed
    }

    /// How many recipients a delivery has, where it is in flight.
    pub(crate) fn recipients(&self, number: u64) -> Option<usize> {
        let flight = self.flights.iter().find(|flight| flight.number == number)?;
        Some(flight.recipients)
    }

    // The id, the transport and the next hop of a delivery stand before its positions.
    fn start(&mut self, text: &[u8]) -> Result<(), AllocError> {
        if let Some((number, behind)) = numbered(text) {
            let recipients = behind.split(|byte| *byte == b' ').skip(3).count();
            self.flights.push(Flight { number, recipients })?;
        }
        Ok(())
    }

    fn end(&mut self, text: &[u8]) {
        if let Some((number, _)) = numbered(text) {
            self.flights.retain(|flight| flight.number != number);
        }
    }

    /// Hears a line that was told.
    pub(crate) fn hear(&mut self, line: &[u8]) -> Result<(), AllocError> {
        let (word, behind) = first_word(line);
        let behind = behind.unwrap_or_default();
        match word {
            b"life" => {
                self.is_timed = false;
                self.flights.clear();
            }
            b"at" => self.is_timed = true,
            b"start" => return self.start(behind),
            b"reply" => self.end(behind),
            _ => {}
        }
        Ok(())
    }
}
