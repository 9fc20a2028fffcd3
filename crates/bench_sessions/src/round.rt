//! Deliveries of one message over many links at once.

use crate::running::{Next, Running};
use crate::server::accepts;
use q_link::{Hops, ScriptHops};
use q_model::{Addresses, FileHead, Hop, Spot};
use q_session::Session;
use q_silent_host::SilentHost;
use std::alloc::Global;

/// A message whose file stands on the host.
#[derive(Drop)]
pub(crate) struct Message {
    pub(crate) spot: Spot,
    pub(crate) file: FileHead,
    pub(crate) to: Addresses,
}

/// What was done so far.
#[derive(Clone, Copy, Default)]
pub(crate) struct Counts {
    pub(crate) sessions: u64,
    pub(crate) polls: u64,
    /// Bytes of content.
    pub(crate) bytes: u64,
}

fn open(alloc: Global, hops: &mut ScriptHops, message: &Message) -> Option<Running> {
    accepts(hops).ok()?;
    let hop = Hop::new(b"[127.0.0.1]:25")?;
    let session = Session::new(alloc, message.spot, &message.file, &message.to, 1000).ok()?;
    let link = hops.connect(alloc, &hop).ok()?;
    Some(Running::new(session, link))
}

/// Polls each session that isn't over; how many aren't.
fn poll_all(
    alloc: Global,
    host: &mut SilentHost,
    hops: &mut ScriptHops,
    slots: &mut [Option<Running>],
    counts: &mut Counts,
) -> Option<u64> {
    let mut working: u64 = 0;
    for slot in slots.iter_mut() {
        let Some(running) = slot.take() else {
            continue;
        };
        counts.polls = counts.polls.saturating_add(1);
        match running.poll(host, 1000)? {
            Next::Working(running) => {
                *slot = Some(running);
                working = working.saturating_add(1);
            }
            Next::Over(link) => hops.close(alloc, link).ok()?,
        }
    }
    Some(working)
}

/// Delivers the message over so many links at once; `None` where memory runs out.
pub(crate) fn deliver(
    alloc: Global,
    host: &mut SilentHost,
    message: &Message,
    links: u64,
    counts: &mut Counts,
) -> Option<()> {
    let mut hops = ScriptHops::new(alloc);
    let mut slots = Vec::new(alloc);
    for _ in 0..links {
        slots.push(Some(open(alloc, &mut hops, message)?)).ok()?;
    }
    for _ in 0..10_000 {
        if poll_all(alloc, host, &mut hops, &mut slots, counts)? == 0 {
            break;
        }
    }
    counts.sessions = counts.sessions.saturating_add(links);
    let bytes = links.saturating_mul(u64::from(message.file.content_len));
    counts.bytes = counts.bytes.saturating_add(bytes);
    Some(())
}
