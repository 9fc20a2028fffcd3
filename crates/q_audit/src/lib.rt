//! The audit of a trace: each line is judged by the recount, and it is counted how far preemption
//! delayed each job.
#![tactic(auto)]

mod audit;
mod error;
mod laws;
mod line;
mod report;
mod tally;
mod trace;

pub use audit::Audit;
pub use error::AuditError;
pub use laws::{
    delays_are_bounded, delays_are_whole, fronts_are_whole, jobs_are_delays, jobs_are_kept,
    jobs_are_told, jobs_go_on,
};
pub use trace::{TraceError, audit_trace};
