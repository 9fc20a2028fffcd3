//! All that is wrong with a spool and its files of conf, told as text (postfix(1), `postfix check`):
//! each line of conf that is at fault, each entry of the transport table whose next hop can't be
//! reached, each file of a queue that is passed over, each damaged message, and the damage for which no
//! life can begin.
//!
//! Nothing is changed and no life is begun, so a spool may be checked at any time. No call is an
//! error: whatever the files say is told.
#![tactic(auto)]

mod checking;
mod conf_faults;
mod copies;
mod file_names;
mod found;
mod laws;
mod lines;
mod names;
mod next_hops;
mod queues;

pub use checking::tell_check;
pub use found::Found;
pub use laws::faults_are_refusals;
