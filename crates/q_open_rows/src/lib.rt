//! Which row of its site a recipient joins, while the recipients of a message are grouped in rows
//! (postconf(5): default_destination_recipient_limit). A row that is full is never joined again, so
//! of the rows of a site only the one that was begun last may be joined. Of each site the place of
//! that row is kept here, and it is found by the site, with no walk over the rows; whether it is
//! full yet only the rows tell.
//!
//! Room is made once, by `new`; no other call takes memory or can fail. It is an error to make it
//! without room or for 2^30 sites and more, and to set the place of another site where there is no
//! room. It is none to ask for a site that isn't there: the answer is None.
#![tactic(auto)]

mod open_row;
mod open_rows;

pub use open_row::OpenRow;
pub use open_rows::OpenRows;
