//! Members by key, in the order in which they came, in room that is made once: messages by id,
//! destinations by site. A member is found by its key and taken out of the middle, and of those
//! with the least rank the first is known, as is the first whose rank is at most a bound, none of it
//! by a walk over them. A rank is what the caller makes of a member, as the moment at which a
//! destination comes back, or the same for each message that has something to do.
//!
//! Members stand in places, in order; a place whose member went stays empty. An index leads from
//! each key to its place, and a tree knows the least rank. Where all places are used up the members
//! move together, once in at least as many additions as there is room. But for that an addition,
//! another value, a removal and the first member within a bound take as many steps as the room has
//! bits, and a look-up takes constant time.
//!
//! No call but `new` takes memory, and no other can fail. It is an error to make a register without
//! room, and to add a member where there is no room, or under a key that is there. It is none to
//! change or remove what isn't there, and does nothing.
#![tactic(auto)]

mod index;
mod member;
mod places;
mod register;
mod together;

pub use member::Member;
pub use register::Register;
