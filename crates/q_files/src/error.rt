//! Why a message wasn't taken.
ghost use Rattle.std.specs.Prelude.{◌≡◌};
ghost use Rattle.q_files.specs.Causes.{file_error_of};

use q_host::HostError;
use q_model::NoMemory as WantOfMemory;
use thiserror::Error;

/// Why a message wasn't taken. `Disk` comes only where the host's count of disk faults rose, and
/// after it the files stand for the book with or without the message. `NoMemory` may always come.
#[derive(Clone, Copy, Debug, PartialEq, Eq, Error)]
pub enum FileError {
    /// A file could not be written, synced or renamed.
    #[error("disk fault")]
    Disk = 1,
    /// Memory ran out.
    #[error("no memory")]
    NoMemory = 2,
    /// The content has more than 40,000,000 bytes.
    #[error("more than 40,000,000 bytes of content")]
    TooBig = 3,
    /// There are more than 50,000 recipients.
    #[error("more than 50,000 recipients")]
    TooMany = 4,
}

impl From<HostError> for FileError {
    ghost from_gives = { λ error made. made ≡ file_error_of error };

    fn from(error: HostError) -> Self {
        match error {
            // Only telling answers `Tell`.
            HostError::Disk | HostError::Tell => FileError::Disk,
            HostError::NoMemory => FileError::NoMemory,
        }
    }
}

impl From<WantOfMemory> for FileError {
    ghost use Rattle.q_files.specs.declared.error.FileError.TheVariants as errors;

    ghost from_gives = { λ _ made. made ≡ errors.NoMemory };

    fn from(_: WantOfMemory) -> Self {
        FileError::NoMemory
    }
}
