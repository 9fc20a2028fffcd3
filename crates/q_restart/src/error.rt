//! Why a spool couldn't be opened.
ghost use Rattle.std.specs.Prelude.{◌≡◌};

use q_host::HostError;
use q_model::{Area, Name, NoMemory as WantOfMemory};
use thiserror::Error;

/// Why a spool couldn't be opened.
#[derive(Debug, Drop, Error)]
pub enum OpenError {
    /// A call for files failed. It comes only where the host's count of disk faults rose.
    #[error("disk fault")]
    Disk,
    /// Memory ran out.
    #[error("no memory")]
    NoMemory,
    /// The files contradict one another, and this one is named: a name in boot that is no
    /// generation or that is one too many, a second file of an id, or a bounce beside its cause.
    #[error("damaged spool: {name}")]
    Damaged { area: Area, name: Name },
    /// The last generation, 2^32 - 1, was used.
    #[error("no generation left")]
    Spent,
}

impl From<HostError> for OpenError {
    ghost use Rattle.q_restart.specs.Causes.{passed_up};

    ghost from_gives = { λ e made. made ≡ passed_up e };

    fn from(error: HostError) -> Self {
        match error {
            // Only telling answers `Tell`.
            HostError::Disk | HostError::Tell => OpenError::Disk,
            HostError::NoMemory => OpenError::NoMemory,
        }
    }
}

impl From<WantOfMemory> for OpenError {
    ghost use Rattle.q_restart.specs.declared.error.OpenError.TheVariants.{NoMemory};

    ghost from_gives = { λ _ e. e ≡ NoMemory };

    fn from(_: WantOfMemory) -> Self {
        OpenError::NoMemory
    }
}
