//! What the refusal of an event ends.
ghost use Rattle.std.specs.Prelude.{◌≡◌, false};
ghost use Rattle.q_listen.specs.Refusals.{is_of_list, listen_error};

use crate::listened::ListenError;
use q_replay::ReplayError;

/// What the refusal of a life's beginning, of an event that it heard, or of its end is. None is one of an
/// event list: a life that listens hears no event that its engine would refuse but for want of a serial.
pub(crate) fn listen_error(error: ReplayError) -> ListenError
    requires { is_of_list error ≡ false }
    ensures { result ≡ listen_error error }
{
    match error {
        ReplayError::Disk => ListenError::Disk,
        ReplayError::Tell => ListenError::Tell,
        ReplayError::NoMemory => ListenError::NoMemory,
        ReplayError::Limit { bound } => ListenError::Limit { bound },
        ReplayError::Damaged { area, name } => ListenError::Damaged { area, name },
        ReplayError::Unreadable { area, name } => ListenError::Unreadable { area, name },
        _ => unreachable!(),
    }
}
