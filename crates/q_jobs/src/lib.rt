//! The line of a transport: the jobs of messages in their order, each with its account of delivery
//! slots (SCHEDULER_README, "Preemptive scheduling"). A job joins at the end, goes before another
//! that it preempts, and leaves from anywhere.
//!
//! Each job has a rank, and ranks rise along the line, so that the places of two jobs are compared
//! at once, and jobs can be kept elsewhere in the order of the line. A rank stays as other jobs
//! come and go, but for the rare call that finds none left for the job that comes: it ranks all
//! anew, in a walk along the line, and says so, to a caller that keeps ranks elsewhere. Every other
//! call costs the same, however long the line is.
//!
//! Room is made once, by `new`; no other call takes memory or can fail. It is an error to make it
//! without room or for 2^30 jobs and more, and to let a message join where there is no room or
//! where it has a job. It is none to ask for the job or the rank of a message that has no job, or
//! to change, move or remove it: the answer is None, or nothing happens.
#![tactic(auto)]

mod job;
mod line;

pub use job::Job;
pub use line::Line;
