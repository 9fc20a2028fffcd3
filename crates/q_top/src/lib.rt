//! The commands of the queue manager on a spool: `submit`, `replay`, `drain` and `listen` run lives, and so
//! do the queue tools `hold`, `release`, `requeue`, `expire` and `flush` before they act; `queue`, `json`,
//! `qshape`, `status` and `show` look at what the queues hold, `params`, `route` and `check` at the files of
//! conf, `audit` at a trace, and `load` runs a generated load in memory.
//!
//! `qmgr` reads the words of a command and carries it out. It is no error to give any words, text or
//! files of conf: what is wrong with them is a status of its own. On a host that tells its files, the
//! spool has to be one that lives may be begun on, or one that shows a damage.
#![tactic(auto)]

mod auditing;
mod checking;
mod command;
mod draining;
mod listening;
mod loading;
mod looking;
mod promises;
mod replaying;
mod showing;
mod status;
mod submitting;
mod telling;
mod tooling;
mod work;

pub use command::qmgr;
pub use promises::whatever_is_called;
pub use q_model::Bound;
pub use status::{InputFile, Status};
