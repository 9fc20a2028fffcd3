//! The engine of a queue manager: what the decision core decides is carried out on disk, exact and
//! safe at every moment.
//!
//! `begin` opens a spool and begins a life, `step` hears one event and carries out the decisions
//! that follow it, `finish` ends the life. Each entry is one change of the book on disk at most, and
//! then its line: so whatever stops the program, what was told stands on disk.
//!
//! It is an error to give an event before the first `At` of a life, a reply to a delivery that isn't
//! in flight or with a wrong number of outcomes, and a message beyond the limits: each is refused
//! before the disk is touched. An engine is spent by every refusal; the spool is opened again by
//! `begin`.
#![tactic(auto)]

mod beginning;
mod carrying;
mod deciding;
mod engine;
mod error;
mod failures;
mod finishing;
mod hearing;
mod judging;
mod leaving;
mod loading;
mod logging;
mod looks;
mod mailing;
mod marking;
mod moving;
mod notices;
mod noting;
mod queries;
mod read_fault;
mod replying;
mod seeking;
mod sending;
mod skipping;
mod step;
mod stop;

pub use beginning::begin;
pub use engine::Engine;
pub use error::{EngineError, stopped_by};
pub use stop::Stop;
