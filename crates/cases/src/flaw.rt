//! Why a case isn't kept.
use q_model::NoMemory;
use std::alloc::{AllocError, AllocFailed, Global};

/// Why a step of a case isn't kept.
#[derive(Drop)]
pub(crate) enum Flaw {
    /// The page has something that is no step, for this reason.
    NoStep(&'static str),
    /// What came isn't what the page says.
    Differs { wanted: Vec<u8>, came: Vec<u8> },
    NoMemory,
}

impl From<NoMemory> for Flaw {
    fn from(_: NoMemory) -> Self {
        Flaw::NoMemory
    }
}

impl From<AllocError> for Flaw {
    fn from(_: AllocError) -> Self {
        Flaw::NoMemory
    }
}

impl<T: Drop> From<AllocFailed<T>> for Flaw {
    fn from(_: AllocFailed<T>) -> Self {
        Flaw::NoMemory
    }
}

/// Whether what came is what the page says.
pub(crate) fn same(alloc: Global, wanted: &[u8], came: &[u8]) -> Result<(), Flaw> {
    if wanted == came {
        return Ok(());
    }
    Err(Flaw::Differs {
        wanted: Vec::from_slice(alloc, wanted)?,
        came: Vec::from_slice(alloc, came)?,
    })
}

/// The same of two numbers.
pub(crate) fn same_number(alloc: Global, wanted: u64, came: u64) -> Result<(), Flaw> {
    let wanted = format!(in alloc; "{wanted}\n")?;
    let came = format!(in alloc; "{came}\n")?;
    same(alloc, wanted.as_bytes(), came.as_bytes())
}
