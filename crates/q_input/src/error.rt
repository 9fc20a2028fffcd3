//! Why nothing was made of a source.
use q_model::NoMemory;
use thiserror::Error;

/// Why the bytes of a source aren't there.
#[derive(Clone, Copy, Debug, PartialEq, Eq, Error)]
pub enum InputError {
    /// The source has more bytes than are asked for.
    #[error("too long")]
    TooLong,
    #[error("input fault")]
    Source,
    #[error("no memory")]
    NoMemory,
}

/// Why there is no list of ids.
#[derive(Clone, Copy, Debug, PartialEq, Eq, Error)]
pub enum IdsError {
    /// A line is no id. Lines count from 1.
    #[error("line {line}: no id")]
    BadLine { line: u64 },
    /// The source has more than 67,108,864 bytes.
    #[error("too long")]
    TooLong,
    #[error("input fault")]
    Source,
    #[error("no memory")]
    NoMemory,
}

impl From<InputError> for IdsError {
    ghost use Rattle.std.specs.Prelude.{◌≡◌};
    ghost use Rattle.q_input.specs.IdLines.{ids_error};

    ghost from_gives = { λ error e. e ≡ ids_error error };

    fn from(error: InputError) -> Self {
        match error {
            InputError::TooLong => IdsError::TooLong,
            InputError::Source => IdsError::Source,
            InputError::NoMemory => IdsError::NoMemory,
        }
    }
}

impl From<NoMemory> for IdsError {
    ghost use Rattle.std.specs.Prelude.{◌≡◌};
    ghost use Rattle.q_input.specs.declared.error.IdsError.TheVariants as errors;

    ghost from_gives = { λ _ e. e ≡ errors.NoMemory };

    fn from(_: NoMemory) -> Self {
        IdsError::NoMemory
    }
}
