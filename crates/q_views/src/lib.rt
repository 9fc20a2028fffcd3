//! Commands that look: what a spool holds, told as text in other forms than the listing's.
//!
//! Nothing is changed and no life is begun, so each may be asked of any spool at any time. Files
//! that are no queue files are passed over.
#![tactic(auto)]

mod counting;
mod figures;
mod generation;
mod json;
mod metrics;
mod objects;
mod status;

pub use json::tell_json;
pub use status::tell_status;
