//! A delivery as it is read.

use q_positions::RowRef;

/// A delivery whose row stands elsewhere. A contract sees the delivery that it shows.
#[derive(Clone, Copy, Debug)]
pub struct DeliveryRef<'a> {
    pub number: u64,
    pub row: RowRef<'a>,
}
