//! Walks over the names of an area, in the order of their bytes: each name once, 64 listed at a
//! time. A walk reads no file and changes nothing. It is an error to go on with a walk after an
//! error of its own.
#![tactic(auto)]

mod fit;
mod scan;

pub use scan::Scan;
