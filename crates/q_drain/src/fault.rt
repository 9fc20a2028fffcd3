//! What a refusal of an engine stops.
ghost use Rattle.std.specs.Prelude.{◌≡◌, ◌||◌, true};
ghost use Rattle.q_drain.specs.Faults.{stop_of};
ghost use Rattle.q_engine.specs.Refusals.{is_of_host, is_unreadable};

use q_engine::{EngineError, Stop};
use q_host::HostError;

/// What an engine's refusal stops. None is one of an event: a drain gives its engine no event that it
/// would refuse.
pub(crate) fn stop_of(error: EngineError) -> Stop
    requires { (is_of_host error || is_unreadable error) ≡ true }
    ensures { result ≡ stop_of error }
{
    match error {
        EngineError::Disk => Stop::Host(HostError::Disk),
        EngineError::Tell => Stop::Host(HostError::Tell),
        EngineError::NoMemory => Stop::Host(HostError::NoMemory),
        EngineError::Unreadable { area, name } => Stop::Unreadable { area, name },
        _ => unreachable!(),
    }
}
