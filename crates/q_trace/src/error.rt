//! Why no entry is read.
use q_model::NoMemory;
use thiserror::Error;

/// Why bytes aren't read as a line of a trace.
#[derive(Clone, Copy, Debug, PartialEq, Eq, Error)]
pub enum EntryError {
    #[error("no memory")]
    NoMemory = 1,
    /// No entry has this line.
    #[error("not a line of a trace")]
    BadEntry = 2,
}

impl From<NoMemory> for EntryError {
    ghost use Rattle.std.specs.Prelude.{◌≡◌};
    ghost use Rattle.q_trace.specs.declared.error.EntryError.TheVariants.{NoMemory};

    ghost from_gives = { λ _ e. e ≡ NoMemory };

    fn from(_: NoMemory) -> Self {
        EntryError::NoMemory
    }
}
