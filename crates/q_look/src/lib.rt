//! The answers to what the decision core asks of the queues: which file stands first in incoming,
//! in active or in deferred, and what it says. `names` finds the first name of an area among those
//! that `wanted` picks out, 64 at a time; `facts` reads what the file says, and `failed` what its
//! failure log adds. `looks` has the three public calls.
//!
//! No call changes anything, and none is an error to call. Names of another form are passed over,
//! and a file that is no queue file is answered as `Damaged`. On a host that doesn't tell its files
//! each answer has a lawful form too. An error comes only as the host's own call or want of memory
//! brings it.
#![tactic(auto)]

mod facts;
mod failed;
mod looks;
mod names;
mod wanted;

pub use looks::{look_active, look_deferred, look_incoming};
