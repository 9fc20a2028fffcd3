//! How a life ends that listens.

use q_model::{Area, Bound, Name};
use thiserror::Error;

/// How a life ends that listens.
#[derive(Clone, Copy, Debug, PartialEq, Eq)]
pub enum Listened {
    /// All connections were served, and the life has ended.
    All,
    /// So many rests were given, and another is needed. The life hasn't ended.
    Unfinished { rests: u64 },
}

/// Why a life that listens didn't come to its end. What was told before it stands on disk.
#[derive(Clone, Copy, Debug, PartialEq, Eq, Error)]
pub enum ListenError {
    #[error("disk fault")]
    Disk,
    #[error("output fault")]
    Tell,
    /// The port can't be taken, or no connection could be accepted.
    #[error("connection fault")]
    Door,
    #[error("no memory")]
    NoMemory,
    /// No generation or serial is left.
    #[error("limit reached: {bound}")]
    Limit { bound: Bound },
    /// The spool can't be opened: this name in this area is at fault.
    #[error("damaged spool")]
    Damaged { area: Area, name: Name },
    /// A queue file of the life can't be read any longer. It comes over a host alone that doesn't tell
    /// its files.
    #[error("unreadable file")]
    Unreadable { area: Area, name: Name },
}
