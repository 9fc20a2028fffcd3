//! Why the files of conf couldn't be told of.
use q_conf::ConfFile;
use q_host::HostError;
use q_model::NoMemory;
use thiserror::Error;

/// Why the files of conf couldn't be told of.
#[derive(Clone, Copy, Debug, PartialEq, Eq, Error)]
pub enum LookError {
    #[error("disk fault")]
    Disk,
    #[error("output fault")]
    Tell,
    #[error("no memory")]
    NoMemory,
    /// This line of the file, counted from 1, breaks its form.
    #[error("line {line}: bad line")]
    BadLine { file: ConfFile, line: u64 },
}

impl From<HostError> for LookError {
    ghost use Rattle.std.specs.Prelude.{◌≡◌};
    ghost use Rattle.q_conf_texts.specs.Tellings.{look_error};

    ghost from_gives = { λ error e. e ≡ look_error error };

    fn from(error: HostError) -> Self {
        match error {
            HostError::Disk => LookError::Disk,
            HostError::Tell => LookError::Tell,
            HostError::NoMemory => LookError::NoMemory,
        }
    }
}

impl From<NoMemory> for LookError {
    ghost use Rattle.std.specs.Prelude.{◌≡◌};
    ghost use Rattle.q_conf_texts.specs.declared.error.LookError.TheVariants as errors;

    ghost from_gives = { λ _ e. e ≡ errors.NoMemory };

    fn from(_: NoMemory) -> Self {
        LookError::NoMemory
    }
}
