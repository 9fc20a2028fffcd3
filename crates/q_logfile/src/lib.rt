//! The logs of a message: failure logs and deferral logs.
//!
//! A log is a row of records of 8 bytes, each a gate byte, the reason, the code of the reply in 2
//! bytes and the recipient's position in 4, with the highest byte first. The gate is `O` where the
//! record counts; any other byte closes the log, and one closed gate stands behind the last record.
//! The reason is `R` (refused) or `X` (expired) in a failure log, and `L` (later) in a deferral log.
#![tactic(auto)]

mod appending;
mod flags;
mod log;
mod reading;
mod record;
mod writing;

pub use appending::{append, appendable};
pub use flags::{flags_of, is_set};
pub use log::log_of;
pub use reading::{notes, records};
pub use writing::replace;
