//! Why bytes aren't a record.
use thiserror::Error;

/// Why no record stands at an offset. The kind is judged first, then the length, then whether the
/// record is whole.
#[derive(Clone, Copy, Debug, PartialEq, Eq, Error)]
pub enum RecError {
    /// The bytes end before the record does.
    #[error("record not whole")]
    NotWhole = 1,
    /// The first byte is no kind of record.
    #[error("unknown kind of record")]
    BadKind = 2,
    /// No body of this kind can have this length.
    #[error("wrong length of record")]
    BadLength = 3,
}
