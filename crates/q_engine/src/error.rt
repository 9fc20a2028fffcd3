//! Why an engine gives up.
ghost use Rattle.std.specs.Prelude.{◌≡◌, true};
ghost use Rattle.q_engine.specs.Refusals.{is_of_host, refusal_of};
ghost use Rattle.q_engine.specs.Stops.{stopped_by};

use crate::stop::Stop;
use q_host::HostError;
use q_model::{Area, Bound, Name};
use thiserror::Error;

/// Why an engine gave up. It is spent by each refusal.
#[derive(Clone, Copy, Debug, PartialEq, Eq, Error)]
pub enum EngineError {
    #[error("disk fault")]
    Disk,
    #[error("output fault")]
    Tell,
    #[error("no memory")]
    NoMemory,
    /// A reply to a delivery that isn't in flight.
    #[error("no delivery {number} in flight")]
    Unknown { number: u64 },
    /// A reply must have an outcome for each recipient of the delivery.
    #[error("delivery {number} has {want} recipients, and {got} outcomes came")]
    WrongCount { number: u64, want: u32, got: u32 },
    #[error("an event before the first moment of a life")]
    Untimed,
    #[error("beyond the limit on {bound}")]
    Limit { bound: Bound },
    /// The spool can't be opened: this name in this area is at fault.
    #[error("damaged spool")]
    Damaged { area: Area, name: Name },
    /// A queue file of this life can't be read any longer. It comes over a host alone that doesn't
    /// tell its files.
    #[error("unreadable file")]
    Unreadable { area: Area, name: Name },
}

pub(crate) fn refusal_of(error: HostError) -> EngineError
    ensures exact { result ≡ refusal_of error }
    ensures host { is_of_host result ≡ true }
{
    match error {
        HostError::Disk => EngineError::Disk,
        HostError::Tell => EngineError::Tell,
        HostError::NoMemory => EngineError::NoMemory,
    }
}

/// The refusal of a life that was stopped.
pub fn stopped_by(stop: Stop) -> EngineError
    ensures { result ≡ stopped_by stop }
{
    match stop {
        Stop::Host(error) => refusal_of(error),
        Stop::Unreadable { area, name } => EngineError::Unreadable { area, name },
    }
}
