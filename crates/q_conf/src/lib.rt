//! The parameters and the transport table that the files of area conf say.
#![tactic(auto)]

mod conf;
mod error;

pub use conf::{Conf, read_conf};
pub use error::{ConfError, ConfFile};
