//! What becomes of bytes that aren't synced.

/// How bytes that aren't synced come out of a crash.
#[derive(Clone, Copy, Debug, PartialEq, Eq)]
pub enum Rot {
    /// They stay as they were written.
    Keep,
    /// The file falls back to its bytes at the last sync, and to its length then.
    Old,
    /// Each becomes this byte.
    Byte(u8),
}
