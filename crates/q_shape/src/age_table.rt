//! A table that is being filled.
ghost use Rattle.q_shape.specs.Buckets.{IsShape};

use crate::numbers::Numbers;
use crate::options::ShapeOptions;
use indexmap::IndexMap;

/// A table of ages that is being filled: the numbers of all that was counted, and of each domain.
#[derive(Drop)]
pub struct AgeTable {
    pub(crate) options: ShapeOptions,
    pub(crate) all: Numbers,
    pub(crate) rows: IndexMap<Vec<u8>, Numbers>,
    ghost shape: { IsShape options },
}
