//! Messages that stand in incoming, told by their serials alone.
ghost use Rattle.q_core.specs.Facts.{IsDated};

use q_core::{FileFacts, Found};
use q_model::{Address, Batch, Hop, Id, Site, Taken};

/// The recipients of a large message behind which jobs begin: more than fill the window of its next
/// hop.
const LARGE: u32 = 1_000;

/// The next hops of the large message, of all second recipients, and of messages that can't begin.
const LARGE_HOP: u32 = 0;

pub(crate) const SHARED_HOP: u32 = 1;

const LAST_HOP: u32 = 2;

/// The next hops of messages that have one each follow these.
const OWN_HOPS: u32 = 3;

/// What the messages are like.
#[derive(Clone, Copy, Debug)]
pub(crate) enum Mail {
    /// The first message has so many recipients, and each other one has one. They are at so many next
    /// hops by turns.
    Alike { first: u32, hops: u32 },
    /// So many next hops have two messages each, by turns. Each message behind these has one of its own.
    Rested { hops: u32 },
    /// A large message; so many of two recipients, the first at a next hop of its own and the second
    /// at one that they share; one with a next hop of its own; and small ones at one next hop.
    Begun { jobs: u32 },
}

pub(crate) fn id_of(serial: u32) -> Id {
    Id {
        generation: 1,
        serial,
        bounce: false,
    }
}

/// The recipients of a message of such mail.
fn begun_recipients(jobs: u32, serial: u32) -> u32 {
    if serial == 1 {
        LARGE
    } else if serial <= jobs.saturating_add(1) {
        2
    } else {
        1
    }
}

/// The next hop of a recipient of such mail.
fn begun_hop(jobs: u32, serial: u32, position: u32) -> u32 {
    if serial == 1 {
        LARGE_HOP
    } else if position > 0 {
        SHARED_HOP
    } else if serial <= jobs.saturating_add(2) {
        serial.saturating_add(OWN_HOPS)
    } else {
        LAST_HOP
    }
}

/// The next hop of a message of mail to next hops that rest, and to others behind it.
fn rested_hop(hops: u32, serial: u32) -> u32 {
    if serial <= hops.saturating_mul(2) {
        serial % hops.max(1)
    } else {
        serial.saturating_sub(hops)
    }
}

pub(crate) fn hop(number: u32) -> Option<Hop> {
    let mut text = *b"mx00000.example";
    let mut rest = number;
    for place in 0..5 {
        text[6 - place] = b'0' + (rest % 10) as u8;
        rest /= 10;
    }
    Hop::new(&text)
}

impl Mail {
    pub(crate) fn recipients(&self, serial: u32) -> u32 {
        match *self {
            Mail::Alike { first, .. } => { if serial == 1 { first } else { 1 } }
            Mail::Rested { .. } => 1,
            Mail::Begun { jobs } => begun_recipients(jobs, serial),
        }
    }

    /// The number of the next hop of the recipient at this position.
    fn hop_number(&self, serial: u32, position: u32) -> u32 {
        match *self {
            Mail::Alike { hops, .. } => serial.saturating_add(position) % hops.max(1),
            Mail::Rested { hops } => rested_hop(hops, serial),
            Mail::Begun { jobs } => begun_hop(jobs, serial, position),
        }
    }

    /// What a look finds at the message of this serial.
    pub(crate) fn found(&self, serial: u32) -> Found
        ensures { IsDated result }
    {
        let file = FileFacts {
            arrival: 1000,
            null_sender: false,
            recipients: self.recipients(serial),
            marked: 0,
            failures: 0,
            unmarked: None,
            bounced: false,
            alone: true,
        };
        Found::Whole {
            id: id_of(serial),
            due: 0,
            file,
        }
    }

    /// The site of the recipient at this position.
    pub(crate) fn site(&self, serial: u32, position: u32) -> Option<Site> {
        Some(Site {
            transport: 0,
            hop: hop(self.hop_number(serial, position))?,
        })
    }
}

/// Adds the recipient at this position to the batch, where there is room.
pub(crate) fn take_recipient(batch: &mut Batch, position: u32) -> Option<()> {
    let address = Address::new(b"somebody@destination.example")?;
    if batch.len() >= batch.room() as usize {
        return None;
    }
    batch.push(Taken {
        position,
        mark_at: 0,
        address,
    });
    Some(())
}
