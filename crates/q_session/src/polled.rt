//! What came of a poll.

use q_model::SiteState;

/// What came of a poll.
#[derive(Clone, Copy, Debug, PartialEq, Eq)]
pub enum Polled {
    /// The link isn't ready to read or to write more.
    Working,
    /// The delivery is over. `Up`: the server answered for each recipient. `Down`: all recipients
    /// are put off, since the server or the link went wrong, or the time is over.
    Over { site: SiteState },
}
