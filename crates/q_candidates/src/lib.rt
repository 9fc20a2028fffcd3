//! The messages that may preempt others, and which of them does next. A message that has begun no
//! delivery at a transport may preempt the current one there where it needs few enough deliveries.
//! Of those that can be sent to now the one with the greatest (age + 1) / need does, and of equals
//! the one admitted first (SCHEDULER_README, "Preemptive scheduling"). A *candidate* is such a
//! message at one of the sites at which rows of it wait.
//!
//! No call walks over all candidates, messages or sites. Candidates stand in lanes, each of one
//! site and one need, by arrival and then by rank. `best` takes the needs of the transport one
//! after the other, the least first, and goes along the heads of a need's lanes to the first whose
//! site has space, which is the oldest. It ends where even the oldest candidate of the transport
//! would be no better with the next need. So it passes one head of each need, sites that are full
//! or dead, and those of the message that is left out. Candidates that came later than the moment
//! that is now are all of one age; where no older one is left, the lanes are walked by rank. Each
//! other call takes a few searches.
//!
//! A site can be suspended, as one is that rests by default_destination_rate_delay. Its lanes then
//! stand apart from those that are walked along, so `best` passes neither them nor their needs.
//! That takes a few searches for each need of the site.
//!
//! Room is made once, by `new`; no other call takes memory or can fail. It is an error to put a
//! candidate that needs no delivery, or one more than have room, and to ask for the best while a site
//! that is suspended has space. It is none to put one whose message has one at the site, whose place
//! it takes, or to remove one that isn't there; nor to put one at a site that is suspended and not to
//! say so, which only lets `best` take a step more.
#![tactic(auto)]

mod arrivals;
mod best;
mod candidate;
mod candidates;
mod filing;
mod index;
mod lane;
mod needs;
mod suspending;
mod walking;
mod wanted;

pub use candidate::Candidate;
pub use candidates::Candidates;
