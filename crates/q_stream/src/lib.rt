//! Streams of bytes that come in pieces, from memory or from a reader of std, and clocks.
//!
//! A stream's contract says which bytes are left, so that a reader above it can be proved to read them
//! all, whichever way they are cut. It counts its faults, so that an answer that blames the source is
//! given only where the source failed. Memory tells its bytes; a reader of the system can't, and then
//! contracts speak of the count alone. It is an error to take into an empty buffer, since no answer of
//! it would tell the end from bytes, and to make a stream in memory of pieces of no byte.
//!
//! A clock gives the moment at each call and can't fail. One over a list in memory tells what it gave, so
//! that a run by it can be told exactly; the machine's tells nothing.
#![tactic(auto)]

mod clock;
mod memory;
mod memory_clock;
mod reader;
mod real_clock;
mod source;

pub use clock::Clock;
pub use memory::MemSource;
pub use memory_clock::MemClock;
pub use reader::StdSource;
pub use real_clock::RealClock;
pub use source::{Source, Take};
