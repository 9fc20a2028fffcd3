//! The transport table of a queue manager (transport(5)): which transport and next hop the mail to
//! an address goes to.
//!
//! The file is read whole, and its first fault is named. Entries stand in a map by pattern, so that
//! neither a line nor a route walks over them. It is an error to ask for the name of a transport
//! whose number isn't below `transports`.
#![tactic(auto)]

mod entries;
mod error;
mod line;
mod lookup;
mod reader;
mod table;
mod text;

pub use error::TableError;
pub use reader::read_table;
pub use table::Table;
