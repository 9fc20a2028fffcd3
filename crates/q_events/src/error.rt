//! Why there is no next event.
use q_model::{Bound, NoMemory};
use thiserror::Error;

/// Why there is no next item. After one of these the reader gives no item any more.
#[derive(Clone, Copy, Debug, PartialEq, Eq, Error)]
pub enum EventError {
    #[error("no memory")]
    NoMemory,
    /// A call on the source failed.
    #[error("input fault")]
    Source,
    /// This line, counted from 1, is none that an event list may have there, or has more than
    /// 16,777,216 bytes without its LF, or is the one behind the last, and there was no `end`.
    #[error("line {line}: bad event")]
    BadEvent { line: u64 },
    /// The list goes on behind its first 2^40 bytes, and there was no `end` in them.
    #[error("limit reached: {bound}")]
    Limit { bound: Bound },
}

impl From<NoMemory> for EventError {
    ghost use Rattle.std.specs.Prelude.{◌≡◌};
    ghost use Rattle.q_events.specs.declared.error.EventError.TheVariants.{NoMemory};

    ghost from_gives = { λ _ e. e ≡ NoMemory };

    fn from(_: NoMemory) -> Self {
        EventError::NoMemory
    }
}
