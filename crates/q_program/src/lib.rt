//! The program `qmgr [-w SECONDS] SPOOL COMMAND ..` but for its entry: it reads the words in front of
//! the command, makes the real objects (folders, standard input and output, the machine's clock,
//! connections over TCP), runs the command, and says on standard error why it ended as it did.
//!
//! Nothing is an error to call. No function has a contract: that the words are passed on and the
//! status comes back is read, and tested on real folders. What the command does is proved of
//! `q_top::qmgr`.
#![tactic(auto)]

mod acted;
mod call;
mod conf_causes;
mod event_causes;
mod flights;
mod heard;
mod help;
mod noted;
mod passed_over;
mod report;
mod rights;
mod routes;
mod running;
mod saying;
mod tally;
mod word_causes;

pub use running::{program, words_of};
