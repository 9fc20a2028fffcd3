//! What tests and benchmarks share: a host over one in memory that tells nothing of its content, which
//! is asked as free of premises as a host over the system's files, and the file of a sample mail.
#![tactic(auto)]

mod sample;
mod silent_host;

pub use sample::{BOUNCE, FILE, FIRST, SECOND, name, places};
pub use silent_host::SilentHost;
