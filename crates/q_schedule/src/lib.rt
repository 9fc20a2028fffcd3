//! The jobs of all transports, the messages in memory, and which of them preempts. A message joins
//! the line of each transport at which rows of it come to wait, and the first job of a line that can
//! be sent to is the current one. Another goes before it where it has begun no delivery there, needs
//! few enough, can be sent to, and has the greatest (age + 1) / need; of equals the one that was
//! admitted first does (SCHEDULER_README, "Preemptive scheduling").
//!
//! The lines and the peers are those of `q_turns`, whose calls this passes on. Beside them it keeps
//! the messages that may preempt as candidates (`q_candidates`), for all messages but one, which is
//! *stale*: a call that changes what a message needs makes it the stale one, takes its candidates
//! out and files those of the one that was stale before. So a row more costs no walk while calls
//! are of one message, and else a walk along the peers of two. `best` asks the candidates and looks
//! at the stale message itself. Messages have ranks in the order of their admission. Where all
//! ranks are used up, after 2^64 admissions, all messages are ranked anew, by the one walk over all
//! of them that there is.
//!
//! Room is made once, by `new`; no other call takes memory or can fail. What is an error to call is
//! so in `q_turns` too; beside it, to admit a message that is in memory or one more than have room.
#![tactic(auto)]

mod admission;
mod admitted;
mod best;
mod lines;
mod messages;
mod peers;
mod queries;
mod ranked;
mod ranking;
mod schedule;
mod stale;
mod suspending;

pub use admitted::Admitted;
pub use schedule::Schedule;
