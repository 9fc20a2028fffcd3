//! A message in memory.
use q_model::{Id, Moment};

/// A message in memory, as far as it is asked whether it preempts.
#[derive(Clone, Copy, Debug)]
pub struct Admitted {
    pub id: Id,
    pub arrival: Moment,
    /// Recipients that weren't read.
    pub unread: u32,
}
