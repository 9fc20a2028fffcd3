//! What is noted beside a command while it runs, for what is said of it in the end.
use crate::acted::Acted;
use crate::flights::Flights;
use crate::noted::Lines;
use crate::tally::Sums;
use q_words::{Request, WordsError};
use std::alloc::Global;
use std::cell::Cell;
use std::io;

/// What came in and was told: why the input failed, what a drain or a queue tool came to, and of an
/// event list the last lines and the deliveries in flight.
#[derive(Drop)]
pub(crate) struct Heard {
    pub(crate) error: Cell<Option<io::Error>>,
    pub(crate) sums: Cell<Sums>,
    pub(crate) lines: Cell<Option<Lines>>,
    pub(crate) flights: Cell<Option<Flights>>,
    pub(crate) acted: Cell<Option<Acted>>,
}

impl Heard {
    /// Nothing yet; of event lists nothing is noted unless one is read.
    pub(crate) fn new(alloc: Global, request: &Result<Request, WordsError>) -> Heard {
        let reads_events = matches!(request, Ok(Request::Replay));
        let acted = match request {
            Ok(request) => Acted::new(alloc, request),
            Err(_) => None,
        };
        Heard {
            error: Cell::new(None),
            sums: Cell::new(Sums::default()),
            lines: Cell::new(reads_events.then(|| Lines::new(alloc))),
            flights: Cell::new(reads_events.then(|| Flights::new(alloc))),
            acted: Cell::new(acted),
        }
    }
}
