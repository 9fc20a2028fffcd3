//! The messages in memory: of each its head, counts of its recipients, and counts of its rows. They
//! stand in the order of their admission. One is found by its id; the first whose marks are to be
//! synced, the first that is idle and the first that is to read recipients are known, none of it by
//! a walk over all of them (qmgr(8)) but in the cases that `first_idle` and `first_to_read` name.
//!
//! Room is made once, by `new`; no other call takes memory or can fail. It is an error to make a
//! pool without room, and to add a message where there is no room, or whose id is there. To change or
//! remove a message that isn't there is none, and does nothing.
#![tactic(auto)]

mod changes;
mod kept;
mod pool;
mod slot;
mod walk;

pub use kept::Kept;
pub use pool::Pool;
pub use slot::Slot;
