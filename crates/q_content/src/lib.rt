//! Content as it goes over an SMTP link (RFC 5321, sections 2.3.8 and 4.5.2): each line ends with
//! CRLF, a line that begins with a dot gets one more, and a line with one dot ends the content.
//! Content is taken in pieces of any size.
//!
//! It is an error to encode into a buffer that hasn't two bytes for each byte of the piece, and two more.
#![tactic(auto)]

mod encoding;
mod laws;
mod runs;

pub use encoding::{ContentLine, Encoded, encode, encode_end};
pub use laws::lines_are_sent;
