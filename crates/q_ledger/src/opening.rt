//! The ledger before the first life.
ghost use Rattle.std.specs.Prelude.{◌≡◌, [], None};
ghost use Rattle.q_ledger.specs.Empty.{empty_ledger};

use crate::book::Book;
use crate::clock::Clock;
use crate::ledger::Ledger;
use crate::waiting::Waiting;
use q_model::Mode;
use std::alloc::Global;

impl Ledger {
    /// On an empty spool, where this was the last generation.
    pub(crate) fn on_empty_spool(alloc: Global, generation: u32) -> Ledger
        ensures { result ≡ record {
          ledger = empty_ledger generation;
          slots = [];
          leftovers = [];
          left = None;
        } }
    {
        Ledger {
            book: Book {
                generation,
                messages: Vec::new(alloc),
            },
            mode: Mode::Deliver,
            clock: Clock::new(0),
            timed: false,
            next_run: 0,
            scan: None,
            asked: None,
            ignores: false,
            deferred_follows: false,
            admitted: Vec::new(alloc),
            leftovers: Vec::new(alloc),
            waiting: Waiting::new(alloc),
            flights: Vec::new(alloc),
            served: Vec::new(alloc),
            unsettled: Vec::new(alloc),
            lines: Vec::new(alloc),
            sites: Vec::new(alloc),
            synced: Vec::new(alloc),
            left: None,
        }
    }
}
