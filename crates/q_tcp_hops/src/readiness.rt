//! Which calls on a connection may go on. Nothing here is an error to call.
use mio::event::Event;
use std::cell::Cell;

/// Which calls on a connection may go on, as far as the system said since one couldn't. The link asks
/// it, and the hops note what a rest hears.
#[derive(Drop)]
pub(crate) struct Readiness {
    pub(crate) reads: Cell<bool>,
    pub(crate) writes: Cell<bool>,
}

impl Readiness {
    /// Of a connection that begins: only a call can tell.
    pub(crate) fn new() -> Readiness {
        Readiness {
            reads: Cell::new(true),
            writes: Cell::new(true),
        }
    }

    /// The system said something of the connection. Where it failed or was closed, each call tells.
    pub(crate) fn note(&self, event: &Event) {
        let is_over = event.is_error() || event.is_read_closed() || event.is_write_closed();
        if event.is_readable() || is_over {
            self.reads.set(true);
        }
        if event.is_writable() || is_over {
            self.writes.set(true);
        }
    }
}
