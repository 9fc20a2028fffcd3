//! Why a replay doesn't come to the end of its list.
ghost use Rattle.std.specs.Prelude.{◌≡◌, ◌≢◌};
ghost use Rattle.q_replay.specs.Takings.{list_error, replay_error};

use q_engine::EngineError;
use q_events::EventError;
use q_model::{Area, Bound, Name};
use thiserror::Error;

/// Why a replay didn't come to the end of its list. What was told before it stands on disk.
#[derive(Clone, Copy, Debug, PartialEq, Eq, Error)]
pub enum ReplayError {
    #[error("disk fault")]
    Disk,
    #[error("output fault")]
    Tell,
    #[error("input fault")]
    Source,
    #[error("no memory")]
    NoMemory,
    /// This line, counted from 1, is none that an event list may have there, or is a reply to a
    /// delivery that isn't in flight or with a wrong number of outcomes, or an event before the
    /// first `at` of its life, or is the one behind the last, and there was no `end`.
    #[error("line {line}: bad event")]
    BadEvent { line: u64 },
    /// A message is beyond its limits, no generation or serial is left, or the list goes on behind
    /// its first 2^40 bytes.
    #[error("limit reached: {bound}")]
    Limit { bound: Bound },
    /// The spool can't be opened: this name in this area is at fault.
    #[error("damaged spool")]
    Damaged { area: Area, name: Name },
    /// A queue file of a life can't be read any longer. It comes over a host alone that doesn't tell
    /// its files.
    #[error("unreadable file")]
    Unreadable { area: Area, name: Name },
}

/// The refusal of the engine at an item in this line.
pub(crate) fn replay_error(line: u64, error: EngineError) -> ReplayError
    ensures exact { result ≡ replay_error line error }
    ensures no_source { result ≢ ReplayError.Source }
{
    match error {
        EngineError::Disk => ReplayError::Disk,
        EngineError::Tell => ReplayError::Tell,
        EngineError::NoMemory => ReplayError::NoMemory,
        EngineError::Unknown { .. } => ReplayError::BadEvent { line },
        EngineError::WrongCount { .. } => ReplayError::BadEvent { line },
        EngineError::Untimed => ReplayError::BadEvent { line },
        EngineError::Limit { bound } => ReplayError::Limit { bound },
        EngineError::Damaged { area, name } => ReplayError::Damaged { area, name },
        EngineError::Unreadable { area, name } => ReplayError::Unreadable { area, name },
    }
}

/// Why the list has no next item.
pub(crate) fn list_error(error: EventError) -> ReplayError
    ensures exact { result ≡ list_error error }
    ensures no_disk { result ≢ ReplayError.Disk }
    ensures no_tell { result ≢ ReplayError.Tell }
    ensures source { result ≡ ReplayError.Source → error ≡ EventError.Source }
{
    match error {
        EventError::NoMemory => ReplayError::NoMemory,
        EventError::Source => ReplayError::Source,
        EventError::BadEvent { line } => ReplayError::BadEvent { line },
        EventError::Limit { bound } => ReplayError::Limit { bound },
    }
}
