//! Queue files, of two versions: written whole, in the second, and read without a copy in memory.
//!
//! A file is a row of records: the counts, the arrival, the sender, the addresses of each recipient (in
//! the first version one, in the second the original one before it), the content and an end. A reader
//! passes over it by a window of 16,384 bytes, so that a call takes no memory for a message of any size.
//! A mark is one byte of a recipient's record, written in place; so a reader of the head counts marks,
//! and a reader of recipients leaves out those that are marked. It is an error to read a file that isn't
//! there, or with a head, a number of recipients or a cursor that aren't of the file.
#![tactic(auto)]

mod body;
mod error;
mod front;
mod head;
mod names;
mod recipients;
mod window;
mod writing;

pub use error::MessageError;
pub use head::read_head;
pub use names::read_names;
pub use q_model::{Batch, Cursor, FileHead, Head, Taken};
pub use recipients::read_recipients;
pub use writing::write_message;
