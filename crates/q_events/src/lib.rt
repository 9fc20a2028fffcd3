//! Event lists: what comes to a queue manager from outside, as lines of text, read one item at a
//! time from a source that gives its bytes in pieces.
//!
//! What is given can be heard as it stands: its form is what the rules require of an event, so that
//! no reader above looks at it again. No call is an error. After an error of a reader, a fault of
//! its source too, it gives no item any more.
#![tactic(auto)]

mod error;
mod events;
mod line;
mod list_item;

pub use error::EventError;
pub use events::Events;
pub use list_item::ListItem;
