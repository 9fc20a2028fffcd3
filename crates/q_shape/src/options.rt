//! What a table of ages looks like.

/// How ages are put into buckets.
#[derive(Clone, Copy, Debug, PartialEq, Eq)]
pub struct ShapeOptions {
    /// Each limit is as much above the one before as the first one is; without it each is twice the
    /// one before.
    pub linear: bool,
    /// How many buckets there are, 2 to 20. The last has no limit.
    pub buckets: u8,
    /// The limit of the first bucket in minutes, 1 to 10,000.
    pub minutes: u32,
}
