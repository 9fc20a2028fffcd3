//! The acts of queue tools (postsuper(1), postqueue(1) -s) on a spool at rest: messages are held back, let
//! go, made due or given up, by their ids or all of them, or those for one domain.
//!
//! Each act changes the disk first, and then tells its line. `specs/` says what is done and told for each
//! book, and what stands on disk at each moment while it is. It is an error to call these while another
//! process runs a life on the spool.
#![tactic(auto)]

mod acting;
mod acts;
mod all;
mod error;
mod expiring;
mod finding;
mod flushing;
mod indexing;
mod lines;
mod moving;
mod several;
mod standing;
mod taking;

pub use acting::act;
pub use acts::Act;
pub use all::every;
pub use error::SuperError;
pub use flushing::flush;
pub use several::{Ids, each};
