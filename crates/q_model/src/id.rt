//! Ids of messages.

/// Seconds since the epoch. A moment that is given is at most 999,990,000,000.
pub type Moment = u64;

/// A message's id: the generation of the life that made it, its number in that life, and whether
/// it is the bounce of the message with these numbers. Both numbers are at least 1.
#[derive(Clone, Copy, Debug, PartialEq, Eq, PartialOrd, Ord, Hash)]
pub struct Id {
    pub generation: u32,
    pub serial: u32,
    pub bounce: bool,
}
