//! The commands of queue tools (postsuper(1), postqueue(1)): an intake life, and behind its end an act on
//! messages that wait.
//!
//! The life brings back or finishes what an earlier one left in active, so that tools find the spool at
//! rest. Each act changes the disk first, and then tells its line. That a message isn't found, or can't be
//! given up, is a refusal behind the life.
#![tactic(auto)]

mod carrying;
mod error;
mod life;
mod resting;
mod task;

pub use carrying::carry;
pub use error::ToolError;
pub use q_super::{Act, Ids};
pub use task::Task;
