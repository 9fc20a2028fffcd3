//! The queues that mail stands in.

/// Which queues are told of.
#[derive(Clone, Copy, Debug, PartialEq, Eq)]
pub struct Queues {
    pub incoming: bool,
    pub active: bool,
    pub deferred: bool,
    pub hold: bool,
}
