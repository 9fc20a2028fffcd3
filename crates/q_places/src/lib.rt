//! Places in queue files that are kept in memory: how far the recipients of each message were read,
//! and the offset of the mark of each recipient in memory. Nothing that a file says is kept with
//! them but how many recipients it has: no address, and no content.
//!
//! All of it is a cache: what isn't kept is read from the file again. So an entry may be forgotten
//! at any time, and is where memory is wanting; but what is answered is what was put in. It is no
//! error to ask for what isn't kept. Entries go with the mark that was written, and with the message
//! that leaves memory: the caller says so, and the cache grows no further than that.
#![tactic(auto)]

mod places;

pub use places::{Places, Progress};
