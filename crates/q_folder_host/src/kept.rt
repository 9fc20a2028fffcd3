//! The file of the last calls, which stays open.
use q_model::Spot;
use std::fs::File;

/// A file that is open, under the place that it has.
#[derive(Drop)]
pub(crate) struct Kept {
    pub(crate) spot: Spot,
    pub(crate) file: File,
    /// Whether it may be written by this handle.
    pub(crate) writes: bool,
}

impl Kept {
    /// Whether it is the file of a place, and may be written where that is wanted.
    pub(crate) fn is_of(&self, spot: Spot, writes: bool) -> bool {
        self.spot == spot && (self.writes || !writes)
    }
}
