//! The table of the ages of mail in queues (QSHAPE_README): for each domain, how many recipients or
//! messages are of what age.
//!
//! A table is made by its options and filled by counts, each of a domain, an age in seconds and a
//! number; `shape` does this of a list. It is an error to ask for fewer than 2 or more than 20
//! buckets, or for a first one of no minutes or more than 10,000.
#![tactic(auto)]

mod age_table;
mod buckets;
mod cells;
mod counting;
mod lines;
mod numbers;
mod options;
mod ranks;
mod request;
mod table;

pub use age_table::AgeTable;
pub use options::ShapeOptions;
pub use request::TableRequest;
pub use table::shape;
