//! What the files of conf say, told as text: the parameters in force (postconf(1)), and where the mail
//! to addresses goes (postmap(1), -q).
//!
//! Nothing is changed and no life is begun, so these may be asked of any spool at any time. A missing
//! file says as much as an empty one. It is an error where the file that is asked breaks its form:
//! then its first faulty line is named, and nothing is told.
#![tactic(auto)]

mod error;
mod params;
mod routes;
mod telling;
mod text;

pub use error::LookError;
pub use telling::{tell_params, tell_routes, tellings_hold};
