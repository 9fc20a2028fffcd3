//! What a host may do with the folders of a spool.

/// What a host may do with the folders of a spool.
#[derive(Clone, Copy, Debug, PartialEq, Eq)]
pub enum Access {
    /// It reads alone. Nothing is locked, made or changed: calls that would are refused. A file that
    /// is gone since its name was listed reads as an empty one. What is told is kept back as by
    /// [`Syncs::Grouped`], and leaves by `flush` at the latest.
    Look,
    /// All calls. Folders that are missing are made, and the root is locked: where another process
    /// has it, it is waited for, at most so many seconds.
    Change { wait: u32, syncs: Syncs },
}

/// When what was made, renamed and removed in folders is made durable.
#[derive(Clone, Copy, Debug, PartialEq, Eq)]
pub enum Syncs {
    /// In each call. A file system that doesn't keep the order of such changes wants this.
    Each,
    /// Of all calls together: before anything is written to the output, before a mark is written that
    /// rests on it, and 50 milliseconds behind the first at the latest, at the next change.
    Grouped {
        /// Whether what is told may be kept back so long, up to 65,536 bytes.
        keeps_lines: bool,
    },
}
