//! The limits of the queue manager: each number stands here once, and what counts by it names it.
//! Clauses and definitions have the numbers themselves.
use crate::id::Moment;
use thiserror::Error;

/// How many recipients a message may have. RFC 5321, section 4.5.3.1.8, asks for 100 at least.
pub const MOST_RECIPIENTS: u32 = 50_000;

/// How many bytes of content a mail may have that comes in: the default of postconf(5),
/// message_size_limit.
pub const MOST_MAIL_BYTES: u32 = 10_240_000;

/// How many bytes of content a queue file may have: those of a mail, and more for a bounce, which
/// names each recipient that failed, by two addresses where it has two. This program's own.
pub const MOST_CONTENT_BYTES: u32 = 40_000_000;

/// The same of a queue file of the first version, in which no recipient has two addresses.
pub const MOST_FIRST_CONTENT_BYTES: u32 = 20_000_000;

/// How many bytes of a message's content a bounce returns: the default of postconf(5),
/// bounce_size_limit.
pub const MOST_RETURNED_BYTES: u32 = 50_000;

/// How many deliveries one life may start. This program's own, so that no count overflows.
pub const MOST_DELIVERIES: u64 = 1 << 48;

/// The last moment that a clock gives and an event may say, in seconds since the epoch (POSIX
/// time()). This program's own: later ones, with the longest delay added, have 12 digits still, as
/// names in deferred have room for.
pub const LAST_MOMENT: Moment = 999_990_000_000;

/// A limit that was reached. A reader of event lists comes to `Input` alone.
#[derive(Clone, Copy, Debug, PartialEq, Eq, Error)]
pub enum Bound {
    /// A message may have 10,240,000 bytes of content.
    #[error("content")]
    Content,
    /// A message may have 50,000 recipients.
    #[error("recipients")]
    Recipients,
    /// There are 2^32 - 1 generations.
    #[error("generation")]
    Generation,
    /// A generation has 2^32 - 1 serials.
    #[error("serial")]
    Serial,
    /// An event list may have 2^40 bytes.
    #[error("input")]
    Input,
    /// A life may start 2^48 deliveries.
    #[error("deliveries")]
    Deliveries,
}
