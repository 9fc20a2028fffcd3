//! SMTP servers for tests, demos and benchmarks, and how one is started as a process of its own.
//!
//! A server answers from a list of replies, each with CRLF behind it: the first at once, each further
//! one behind a line that came. Behind a 354 content comes, of which only the line `.` is answered.
//! Nothing here is an error to call.
#![tactic(auto)]

mod answering;
mod listening;
mod starting;

pub use answering::{ACCEPTANCE, Answers, answer, await_end};
pub use listening::listen;
pub use starting::{Server, start};
