//! What comes to a queue manager from outside.
use crate::{Address, Addresses, Bytes, Moment, Outcomes, SiteState};

/// Whether a life delivers, or only takes messages in.
#[derive(Clone, Copy, Debug, PartialEq, Eq)]
pub enum Mode {
    Deliver,
    Intake,
}

/// The triggers of qmgr(8): `D` scans the deferred queue, `A` lets the next scan ignore due
/// times, `F` forgets which sites are dead.
#[derive(Clone, Copy, Debug, PartialEq, Eq)]
pub enum Trigger {
    D,
    A,
    F,
}

/// Something that happened. A mail has 1 to 50,000 recipients and at most 10,240,000 bytes of
/// content; `None` is the null sender.
#[derive(Debug, Drop)]
pub enum Event {
    At {
        moment: Moment,
    },
    Mail {
        sender: Option<Address>,
        to: Addresses,
        content: Bytes,
    },
    Reply {
        number: u64,
        site: SiteState,
        outcomes: Outcomes,
    },
    Trigger {
        kind: Trigger,
    },
}

/// What a run is made from: a life begins on the book as it stands, an event is heard, or the
/// life ends as asked.
#[derive(Debug, Drop)]
pub enum LifeEvent {
    Begin,
    Heard { event: Event },
    Finish,
}
