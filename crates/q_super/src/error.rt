//! Why a tool gave up.
ghost use Rattle.std.specs.Prelude.{◌≡◌};
ghost use Rattle.q_super.specs.Refusals.{refusal_of};

use q_host::HostError;
use thiserror::Error;

/// Why a tool gave up. `Disk` and `Tell` come only where the host's count of such faults rose;
/// `NoMemory` may always come.
#[derive(Clone, Copy, Debug, PartialEq, Eq, Error)]
pub enum SuperError {
    /// A call for files failed.
    #[error("disk fault")]
    Disk = 1,
    /// The output did not take all that was to be told.
    #[error("output fault")]
    Tell = 2,
    /// Memory ran out.
    #[error("no memory")]
    NoMemory = 3,
    /// The id stands nowhere where the act takes messages from.
    #[error("no such message")]
    Absent = 4,
}

impl From<HostError> for SuperError {
    ghost from_gives = { λ error made. made ≡ refusal_of error };

    fn from(error: HostError) -> Self {
        match error {
            HostError::Disk => SuperError::Disk,
            HostError::Tell => SuperError::Tell,
            HostError::NoMemory => SuperError::NoMemory,
        }
    }
}
