//! Positions of recipients side by side, in room that is made once: so many lists, each with room
//! for so many numbers. Rows that wait or are sent lend their positions from there, so that none
//! of them has memory of its own, and none can be wanting later.
//!
//! `Lists` are the lists alone. `Slots` are places for rows by number, and `RowList` rows in order,
//! both with their positions in `Lists`. A row is read as a `RowRef`, which a contract sees as the
//! row that it shows.
//!
//! Room is made once, by `new`; no other call takes memory or can fail. It is an error to make it
//! without room, for 2^30 lists and more, or for more than 1024 numbers in a list; to change a list,
//! a slot or a row that isn't there; and to give one more numbers than have room. It is none to ask
//! for one that isn't there: the answer is empty.
#![tactic(auto)]

mod head;
mod lists;
mod row_list;
mod row_ref;
mod slots;

pub use lists::Lists;
pub use row_list::RowList;
pub use row_ref::RowRef;
pub use slots::Slots;
