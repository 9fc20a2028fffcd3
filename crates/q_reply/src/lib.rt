//! SMTP replies (RFC 5321, section 4.2), cut out of the bytes that a server sends.
//!
//! A reply is lines of one three-digit code; `-` behind the code says that another line follows.
//! Bytes come in any pieces: a [`Replies`] keeps what has begun, in a few bytes, and answers with a
//! code where a reply ends. A line has at most 512 bytes with its end (section 4.5.3.1.5), and a
//! reply at most 100 lines; what is longer, or no reply, is a fault, and stays one.
//!
//! More is taken than a server may send: a line may end with LF alone, and the second digit of a
//! code may be any. No call is an error: any bytes may be fed at any time, and nothing allocates.
#![tactic(auto)]

mod progress;
mod replies;

pub use replies::{Fed, Replies};
