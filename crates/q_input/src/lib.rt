//! What comes in whole from a source: the bytes of a content, and lists of ids, one a line.
//!
//! A source is read to its end before anything is made of it, so that a fault of it changes nothing. It is
//! no error to read any source: one that has more than is asked for, or a line that is no id, is refused.
#![tactic(auto)]

mod error;
mod ids;
mod reading;

pub use error::{IdsError, InputError};
pub use ids::{MOST_ID_BYTES, id_named, read_ids};
pub use reading::read_all;
