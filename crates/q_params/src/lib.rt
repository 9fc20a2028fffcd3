//! The parameter file of a queue manager (postconf(5)): each parameter that it sets, with the
//! defaults of the others, or its first fault.
//!
//! All is read before anything is said, since two pairs of numbers may be the wrong way round until
//! the last line. No call is an error: whatever the bytes are, the answer is parameters in their
//! ranges or a fault.
#![tactic(auto)]

mod draft;
mod error;
mod parameter;
mod reader;
mod times;

pub use error::{ParamCause, ParamError};
pub use parameter::Parameter;
pub use q_settings::Params;
pub use reader::read_params;
