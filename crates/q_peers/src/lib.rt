//! The rows that wait, in the order in which they came. A row has those recipients of a message
//! that one delivery may carry to one site. Of all rows and of those to a site the first is found,
//! and the next one behind a row, and the first of a message to a site, without a walk over the
//! others; and a row leaves from anywhere at the same cost. So a decision costs no more where many
//! rows wait.
//!
//! A row has a number while it waits, which no other row has; the number of a row that went is
//! given again. The numbers are chained in the order in which their rows came, and once more in
//! buckets by message and site and in buckets by site, as many of each as rows have room. Only along one
//! bucket does a call walk.
//!
//! Room is made once, by `new`, for the positions of each row too (`q_positions::Slots`); no other
//! call takes memory or can fail, and a row is lent as it stands there. It is an error to make it
//! without room, for 2^30 rows and more or for more than 1024 positions in a row, and to add a row
//! where there is no room for it or for its positions. It is none to ask for a number that no row
//! has: the answer is None; nor to remove it: nothing goes.
#![tactic(auto)]

mod bucket;
mod finding;
mod slots;
mod waiting;
mod walk;

pub use bucket::{peer_hash, site_hash};
pub use waiting::Waiting;
