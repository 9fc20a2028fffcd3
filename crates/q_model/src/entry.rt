//! The entries of a trace.
use crate::{
    Address, Addresses, Bytes, Failure, Id, Mode, Moment, Outcomes, Positions, Site, SiteState,
    Trigger,
};

/// One line of a trace: what came, or what was decided and done. `Life`, `At`, `Arrive`, `Reply`,
/// `Trigger` and `End` come from outside; the others are decisions.
#[derive(Debug, Drop)]
pub enum Entry {
    Life {
        generation: u32,
        mode: Mode,
    },
    At {
        moment: Moment,
    },
    Arrive {
        id: Id,
        sender: Option<Address>,
        to: Addresses,
        content: Bytes,
    },
    Back {
        id: Id,
    },
    Admit {
        id: Id,
    },
    Load {
        id: Id,
        from: u32,
        to: u32,
    },
    Start {
        number: u64,
        id: Id,
        site: Site,
        positions: Positions,
    },
    Preempt {
        child: Id,
        parent: Id,
        transport: u8,
        need: u32,
    },
    Reply {
        number: u64,
        site: SiteState,
        outcomes: Outcomes,
    },
    Skip {
        id: Id,
        site: Site,
        positions: Positions,
    },
    Log {
        id: Id,
        failure: Failure,
    },
    Mark {
        id: Id,
        position: u32,
    },
    Sync {
        id: Id,
    },
    Defer {
        id: Id,
        due: Moment,
    },
    Bounce {
        id: Id,
    },
    Remove {
        id: Id,
    },
    Corrupt {
        id: Id,
    },
    Trigger {
        kind: Trigger,
    },
    End,
}
