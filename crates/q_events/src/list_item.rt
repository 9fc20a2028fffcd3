//! The items of an event list.
use q_model::Event;

/// What stands in an event list.
#[derive(Debug, Drop)]
pub enum ListItem {
    /// An event, and the number of its line, counted from 1. A mail may have any number of
    /// recipients, at least one, and any length of content: whether it is within the limits of a
    /// message is for the caller to judge.
    Step { event: Event, line: u64 },
    /// This life ends, and the next begins.
    Restart,
    /// The end of the list.
    End,
}
