//! A link that was closed, kept whole: its record is read from it.

use crate::ScriptLink;

#[derive(Drop)]
pub(crate) struct ClosedLink {
    pub link: ScriptLink,
    // how many rests and connects its hops had counted then
    pub rests: u64,
    pub connects: u64,
}
