//! What a queue tool is asked to do.
use q_model::{Hop, Id};

/// Which messages are named.
#[derive(Clone, Copy, Debug, PartialEq, Eq)]
pub enum Chosen {
    /// That of the id.
    One(Id),
    /// Those whose ids the source names, one a line.
    Listed,
}

/// With which messages an act is done.
#[derive(Clone, Copy, Debug, PartialEq, Eq)]
pub enum Target {
    /// All that the act takes.
    All,
    /// Those that are named.
    Only(Chosen),
}

/// What a queue tool is asked to do.
#[derive(Clone, Copy, Debug, PartialEq, Eq)]
pub enum ToolRequest {
    /// Hold mail back.
    Hold(Target),
    /// Let go what was held back.
    Release(Target),
    /// Take in anew what was deferred.
    Requeue(Target),
    /// Give messages up.
    Expire(Chosen),
    /// Take in anew the deferred mail for a domain.
    Flush(Hop),
}
