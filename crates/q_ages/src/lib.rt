//! The table of the ages of mail (QSHAPE_README) of the messages that stand in queues, told as text.
//!
//! Nothing is changed and no life is begun, so a table may be asked of any spool at any time. Files
//! that are no queue files are passed over.
#![tactic(auto)]

mod ages;
mod counting;

pub use ages::tell_ages;
