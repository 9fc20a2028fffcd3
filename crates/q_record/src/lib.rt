//! Records: a kind byte, the length of a body in 4 bytes with the highest first, and the body. Queue
//! files are made of them.
#![tactic(auto)]

mod error;
mod kind;
mod reading;
mod writing;

pub use error::RecError;
pub use reading::{Rec, get};
pub use writing::put;
