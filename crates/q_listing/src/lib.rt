//! The listing of the queues (postqueue(1), -p), told as text: of each message a line, one for each
//! of its pending recipients, and at last one of how many there are.
//!
//! Nothing is changed and no life is begun, so a listing may be asked of any spool at any time.
//! Files that are no queue files are passed over.
#![tactic(auto)]

mod codes;
mod lines;
mod listing;
mod recipients;
mod whole;

pub use codes::{Codes, code_of, codes_of};
pub use lines::{add_code, add_message, queue_text};
pub use listing::tell_listing;
pub use recipients::reader_of;
