//! Why a call of a host failed.
ghost use Rattle.std.specs.Prelude.{◌≡◌};

use q_model::NoMemory as WantOfMemory;
use std::alloc::{AllocError, AllocFailed};
use thiserror::Error;

/// Why a call of a host failed. `Disk` and `Tell` come only where the host's count of such faults
/// rose; `NoMemory` may always come, and then the host is as it was.
#[derive(Clone, Copy, Debug, PartialEq, Eq, Error)]
pub enum HostError {
    /// A file could not be listed, read, written, synced, renamed or removed.
    #[error("disk fault")]
    Disk = 1,
    /// The output did not take all that was to be told.
    #[error("output fault")]
    Tell = 2,
    /// Memory ran out.
    #[error("no memory")]
    NoMemory = 3,
}

impl From<AllocError> for HostError {
    ghost use Rattle.q_host.specs.declared.error.HostError.TheVariants.{NoMemory};

    ghost from_gives = { λ _ e. e ≡ NoMemory };

    fn from(_: AllocError) -> Self {
        HostError::NoMemory
    }
}

impl<T: Drop> From<AllocFailed<T>> for HostError {
    ghost use Rattle.q_host.specs.declared.error.HostError.TheVariants.{NoMemory};

    ghost from_gives = { λ _ e. e ≡ NoMemory };

    fn from(_: AllocFailed<T>) -> Self {
        HostError::NoMemory
    }
}

impl From<WantOfMemory> for HostError {
    ghost use Rattle.q_host.specs.declared.error.HostError.TheVariants.{NoMemory};

    ghost from_gives = { λ _ e. e ≡ NoMemory };

    fn from(_: WantOfMemory) -> Self {
        HostError::NoMemory
    }
}
