//! Reading an event list through its end.
use q_events::{EventError, Events, ListItem};
use q_stream::Source;
use std::alloc::Global;

/// How many items stand before the end.
pub(crate) fn read_through<S: Source>(alloc: Global, source: &mut S) -> Result<u64, EventError> {
    let mut events = Events::new(alloc)?;
    let mut count: u64 = 0;
    loop {
        match events.read_event(alloc, source)? {
            ListItem::End => return Ok(count),
            ListItem::Step { .. } => count = count.saturating_add(1),
            ListItem::Restart => count = count.saturating_add(1),
        }
    }
}
