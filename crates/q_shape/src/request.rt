//! Which table of ages is asked for.
use crate::options::ShapeOptions;
use q_model::Queues;

/// A table of ages.
#[derive(Clone, Copy, Debug, PartialEq, Eq)]
pub struct TableRequest {
    /// Messages count under the domains of their senders, in place of recipients under their own.
    pub senders: bool,
    pub queues: Queues,
    pub shape: ShapeOptions,
}
