//! The figures of a spool.
ghost use Rattle.std.specs.Option.{option_map_or};
ghost use Rattle.std.specs.Prelude.{◌≡◌, min};
ghost use Rattle.q_model.specs.Places.{due_of};
ghost use Rattle.q_views.specs.Tallies.{earlier, messages_of, recipients_of, tally_with};

use q_model::{Moment, Place};

/// How much stands in a queue. Of a book no count comes to its last value.
#[derive(Clone, Copy, Debug, PartialEq, Eq)]
pub(crate) struct Tally {
    pub(crate) messages: u128,
    /// Those that are pending.
    pub(crate) recipients: u128,
    /// When the message arrived that came first.
    pub(crate) oldest: Option<Moment>,
    /// When the first message is due, in deferred.
    pub(crate) due: Option<Moment>,
}

/// What is told of a spool.
#[derive(Clone, Copy, Debug, PartialEq, Eq)]
pub(crate) struct Figures {
    pub(crate) incoming: Tally,
    pub(crate) active: Tally,
    pub(crate) deferred: Tally,
    pub(crate) hold: Tally,
    /// The generation of the last life; 0 before the first.
    pub(crate) generation: u32,
}

/// A count of each queue.
#[derive(Clone, Copy, Debug, PartialEq, Eq)]
pub(crate) struct QueueCounts {
    pub(crate) incoming: u128,
    pub(crate) active: u128,
    pub(crate) deferred: u128,
    pub(crate) hold: u128,
}

impl Figures {
    /// The messages in each queue.
    pub(crate) fn messages(&self) -> QueueCounts
        ensures { result ≡ messages_of self.now }
    {
        QueueCounts {
            incoming: self.incoming.messages,
            active: self.active.messages,
            deferred: self.deferred.messages,
            hold: self.hold.messages,
        }
    }

    /// Their pending recipients.
    pub(crate) fn recipients(&self) -> QueueCounts
        ensures { result ≡ recipients_of self.now }
    {
        QueueCounts {
            incoming: self.incoming.recipients,
            active: self.active.recipients,
            deferred: self.deferred.recipients,
            hold: self.hold.recipients,
        }
    }
}

/// The moment from which a message at this place is due.
fn due_at(place: Place) -> Option<Moment>
    ensures { result ≡ due_of place }
{
    match place {
        Place::Deferred(due) => Some(due),
        _ => None,
    }
}

/// The earlier of a moment and one that may be known.
fn earlier(known: Option<Moment>, moment: Moment) -> Option<Moment>
    ensures { result ≡ Some (earlier known moment) }
{
    match known {
        Some(known) => Some(known.min(moment)),
        None => Some(moment),
    }
}

/// The earlier of two moments that may be known.
fn earlier_of(known: Option<Moment>, moment: Option<Moment>) -> Option<Moment>
    ensures { result ≡ option_map_or (λ d. Some (earlier known d)) moment known }
{
    match moment {
        Some(moment) => earlier(known, moment),
        None => known,
    }
}

impl Tally {
    /// Nothing.
    pub(crate) const NONE: Tally = Tally {
        messages: 0,
        recipients: 0,
        oldest: None,
        due: None,
    };

    /// A message more, with so many pending recipients.
    pub(crate) fn with(self, place: Place, arrival: Moment, recipients: u32) -> Tally
        ensures { result ≡ tally_with self place arrival recipients }
    {
        Tally {
            messages: self.messages.saturating_add(1),
            recipients: self.recipients.saturating_add(u128::from(recipients)),
            oldest: earlier(self.oldest, arrival),
            due: earlier_of(self.due, due_at(place)),
        }
    }
}
