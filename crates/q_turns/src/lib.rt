//! Whose turn it is: the jobs of all transports in their lines, and their peers. A job is a message
//! at a transport, and a peer is a message at a site, of which rows wait there (SCHEDULER_README,
//! "Preemptive scheduling"). It knows of each transport the first job that can be sent something,
//! and of each job the peer that is next.
//!
//! To find that job, no call walks along a line or over all peers. A site for which rows wait has a
//! lane, and in it its peers stand by the ranks of their jobs. The first ones of the transport's
//! lanes, their heads, stand in order again, and are asked one by one; each that is passed is at a
//! site that is full. As a job goes before another, its peers move in their lanes; and in the very
//! rare call that finds no rank left all jobs of a transport are ranked anew, in a walk.
//!
//! A site can be suspended until a moment, as qmgr_queue.c does with one that rests by
//! default_destination_rate_delay. Its lane then stands apart from those that are asked, so it isn't
//! even passed, and so do its candidates. Whoever suspends a site must see that it has no space
//! meanwhile; a lane may come and go at it as at any other. Each that is suspended or resumed costs as
//! much as a job that moves, and a few searches for each need of its candidates.
//!
//! A message whose job at a transport has begun no delivery may preempt another one there. `file`
//! brings its candidates up to date in a walk along its own peers: one at each site at which rows
//! of it wait, which needs all its rows that wait at the transport and its recipients that weren't
//! read. It is for calls that changed its rows, what was read of it or what its jobs began.
//!
//! A job joins its line before a row of its message waits at the transport, and leaves behind the
//! last one. Room is made once, by `new`; no other call takes memory or can fail. It is an error to
//! let a job join where it stands already or has no room, or leave while rows of it wait; to let a
//! row come without a job or without room for its peer; to let two peers be sent to in one
//! delivery; to put a job before itself, or before one that isn't there; to suspend a site twice, or
//! to ask for the job of a transport while one that is suspended has space; to suspend, resume or
//! file with candidates of which a site is suspended that isn't here; and to file a message among
//! candidates that have another room, or of which one is at a site at which no row of its message
//! waits: as the last row there goes, it is to be taken out. It is none to ask for, change, lose or
//! file what isn't there.
#![tactic(auto)]

mod current;
mod filing;
mod heading;
mod lane;
mod laning;
mod lines;
mod moving;
mod next;
mod peers;
mod suspending;
mod turns;

pub use filing::Facts;
pub use turns::Turns;
