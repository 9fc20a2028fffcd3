//! The words of each command, read by clap, with a contract that says exactly which are refused.
//!
//! The first word is the command: `replay`, `queue`, `json`, `status`, `params`, `check` and `audit` take no more;
//! `submit` takes a sender, `<>` for the null sender, and one or more recipients; `drain` takes a number
//! of rests; `qshape` takes options and queues; `load` takes a number of mails; `listen` takes a port, a
//! number of connections and one of rests; `hold`, `release` and `requeue` take an id, `ALL`, or `-`
//! for ids from the input, `expire` an id or `-`, and `flush` a domain; `show` takes an id, and `route`
//! one or more addresses. It is no error to give any words. What stands alone in place of a command,
//! as `--help`, isn't read here.
#![tactic(auto)]

mod arguments;
mod commands;
mod draining;
mod error;
mod listening;
mod loading;
mod looking;
mod plain;
mod queues;
mod reading;
mod request;
mod submission;
mod tables;
mod tool;
mod tools;

pub use error::WordsError;
pub use reading::read_words;
pub use request::Request;
pub use tool::{Chosen, Target, ToolRequest};
