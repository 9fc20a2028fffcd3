//! What may be wrong with a parameter file.
use thiserror::Error;

/// Why a line is refused, in the order in which causes are looked for.
#[derive(Clone, Copy, Debug, PartialEq, Eq, Error)]
pub enum ParamCause {
    /// A byte is neither printable ASCII nor a tab.
    #[error("not text")]
    NotText,
    #[error("no equals sign")]
    NoEquals,
    #[error("unknown parameter")]
    UnknownName,
    /// An earlier line set the parameter.
    #[error("set twice")]
    Twice,
    /// The value isn't one of this parameter, or two parameters disagree.
    #[error("bad value")]
    BadValue,
}

/// The first fault of a parameter file. Lines count from 1.
#[derive(Clone, Copy, Debug, PartialEq, Eq, Error)]
#[error("line {line}: {cause}")]
pub struct ParamError {
    pub line: u64,
    pub cause: ParamCause,
}
