//! What may be wrong with a transport table.
use std::alloc::{AllocError, AllocFailed};
use thiserror::Error;

/// The first fault of a transport table, or want of memory. Lines count from 1.
#[derive(Clone, Copy, Debug, PartialEq, Eq, Error)]
pub enum TableError {
    #[error("no memory")]
    NoMemory,
    /// A line isn't of the form `pattern transport:nexthop`.
    #[error("line {line}: bad line")]
    BadLine { line: u64 },
    /// An earlier line has the same pattern.
    #[error("line {line}: pattern set twice")]
    Twice { line: u64 },
    /// The line is a 10,001st entry, or names a 21st transport.
    #[error("line {line}: too many")]
    TooMany { line: u64 },
}

impl From<AllocError> for TableError {
    ghost use Rattle.std.specs.Prelude.{◌≡◌};
    ghost use Rattle.q_transport.specs.declared.error.TableError.TheVariants.{NoMemory};

    ghost from_gives = { λ _ e. e ≡ NoMemory };

    fn from(_: AllocError) -> Self {
        TableError::NoMemory
    }
}

impl<T: Drop> From<AllocFailed<T>> for TableError {
    ghost use Rattle.std.specs.Prelude.{◌≡◌};
    ghost use Rattle.q_transport.specs.declared.error.TableError.TheVariants.{NoMemory};

    ghost from_gives = { λ _ e. e ≡ NoMemory };

    fn from(_: AllocFailed<T>) -> Self {
        TableError::NoMemory
    }
}
