//! The types that every other crate speaks of, and (in `specs/`) the definition of what a queue
//! manager does: the book of messages, the ledger of one life, the entries of a trace, the next
//! decision and whole runs.
#![tactic(auto)]

mod address;
mod entry;
mod event;
mod file_head;
mod hop;
mod id;
mod id_text;
mod limits;
mod name;
mod names;
mod no_memory;
mod outcome;
mod padded;
mod queues;
mod receiver;
mod rows;
mod sequence;
mod site;
mod spot;

pub use address::{Address, split_domain};
pub use entry::Entry;
pub use event::{Event, LifeEvent, Mode, Trigger};
pub use file_head::{Batch, Cursor, FileHead, Head, Taken};
pub use hop::Hop;
pub use id::{Id, Moment};
pub use id_text::{due_name, due_of, id_name, id_of};
pub use limits::{
    Bound, LAST_MOMENT, MOST_CONTENT_BYTES, MOST_DELIVERIES, MOST_FIRST_CONTENT_BYTES,
    MOST_MAIL_BYTES, MOST_RECIPIENTS, MOST_RETURNED_BYTES,
};
pub use name::Name;
pub use names::Names;
pub use no_memory::NoMemory;
pub use outcome::{Failure, Note, Outcome, SiteState, Why};
pub use queues::Queues;
pub use receiver::Receiver;
pub use rows::{
    Admitted, DeferredName, Delivery, Health, Mark, Need, Place, Request, Row, Scan, Served,
    SiteRecord, Unsettled,
};
pub use sequence::{Addresses, Bytes, Counted, Notes, Outcomes, Positions, Records, Sequence};
pub use site::Site;
pub use spot::{Area, Spot};
