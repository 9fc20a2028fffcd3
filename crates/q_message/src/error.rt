//! Why a queue file couldn't be read.
ghost use Rattle.std.specs.Prelude.{◌≡◌};
ghost use Rattle.q_message.specs.Causes.{passed_on};

use q_host::HostError;
use q_model::NoMemory;
use thiserror::Error;

/// Why a queue file couldn't be read. `Disk` comes only where the host's count of disk faults
/// rose, and `NoMemory` only where the host's own call answered it or there was none for the list
/// of the answer.
#[derive(Clone, Copy, Debug, PartialEq, Eq, Error)]
pub enum MessageError {
    /// The file could not be read.
    #[error("disk fault")]
    Disk,
    /// Memory ran out.
    #[error("no memory")]
    NoMemory,
    /// The file is no queue file. The record that begins at this offset is the first that breaks
    /// the form, or bytes stand there behind the last record.
    #[error("no queue file: byte {place}")]
    NotAMessage { place: u64 },
}

impl From<HostError> for MessageError {
    ghost from_gives = { λ e made. made ≡ passed_on e };

    fn from(error: HostError) -> Self {
        match error {
            // Only telling answers `Tell`.
            HostError::Disk | HostError::Tell => MessageError::Disk,
            HostError::NoMemory => MessageError::NoMemory,
        }
    }
}

impl From<NoMemory> for MessageError {
    ghost use Rattle.q_message.specs.declared.error.MessageError.TheVariants as errors;

    ghost from_gives = { λ _ made. made ≡ errors.NoMemory };

    fn from(_: NoMemory) -> Self {
        MessageError::NoMemory
    }
}
