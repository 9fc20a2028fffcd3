//! The outside world of a queue manager: a disk of many files in areas, and told output, seen as
//! one thing that may crash between any two steps. `specs/` says what each call does and what a
//! crash leaves; `proofs/` says how the effects of several calls compose.
#![tactic(auto)]

mod error;
mod host;
mod listing;
mod reading;

pub use error::HostError;
pub use host::Host;
pub use listing::last_of_full;
pub use q_model::Area;
pub use reading::read_file;
