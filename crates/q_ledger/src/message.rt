//! A message, but for what decides nothing: its content, the version of its file, original addresses.
ghost use Rattle.std.specs.List.{list_any};
ghost use Rattle.std.specs.Prelude.{◌≡◌, ◌==◌, ◌<◌, ◌^◌, count_by, IfSome, IsTrue, length, not, option_map, slice_get};
ghost use Rattle.std.specs.Option.{option_copied};
ghost use Rattle.q_model.specs.Finishing.{is_clean, is_done, wants_bounce};
ghost use Rattle.q_model.specs.Marking.{is_unmarked_at};
ghost use Rattle.q_model.specs.Marks.{is_marked, is_written};
ghost use Rattle.q_model.specs.Lists.{has_none};
ghost use Rattle.q_model.specs.Message.{is_logged, pending, unmarked_logged, written_marks};
ghost use Rattle.q_model.specs.Places.{is_active, is_incoming};
ghost use Rattle.q_ledger.specs.Pending.{is_open, lacks_mark, passes_in};

use q_model::{Address, Failure, Id, Mark, Moment, Place};
use std::marker::Model;

/// A recipient and its mark. A contract sees it as the book's, without an original address.
#[derive(Clone, Copy, Debug)]
pub(crate) struct Recipient {
    pub(crate) address: Address,
    pub(crate) mark: Mark,
}

impl Model for Recipient {
    ghost use Rattle.q_model.specs.Message.{Recipient};

    ghost Value = { Recipient };

    ghost use Rattle.std.specs.Prelude.{None};

    ghost view = { λ r. record { address = r.address; original = None; mark = r.mark } };

    ghost inverse = { λ v. record { address = v.address; mark = v.mark } };
}

/// A message. A contract sees it as the book's, without content and of the newest version; each of
/// its failures is firm. It has fewer than 2^32 recipients, so that a position is a `u32`.
#[derive(Debug, Drop)]
pub(crate) struct Message {
    pub(crate) id: Id,
    pub(crate) sender: Option<Address>,
    pub(crate) arrival: Moment,
    pub(crate) recipients: Vec<Recipient>,
    pub(crate) failures: Vec<Failure>,
    pub(crate) place: Place,
    /// How many marks a crash may still lose.
    pub(crate) written: usize,
}

impl Model for Message {
    ghost use Rattle.q_model.specs.Message.{Message};

    ghost Value = { Message };

    ghost use Rattle.std.specs.List.{list_any};
    ghost use Rattle.std.specs.Prelude.{◌≡◌, ◌<◌, ◌^◌, length, map, [], count_by};
    ghost use Rattle.q_model.specs.Marks.{is_written};
    ghost use Rattle.q_model.specs.QueueFile.{new_version};
    ghost use Rattle.q_ledger.specs.Kept.{firm_failure};

    ghost view = { λ m. record {
      id = m.id;
      version = new_version;
      sender = m.sender;
      arrival = m.arrival;
      content = [];
      recipients = m.recipients.items;
      failures = map firm_failure m.failures.items;
      place = m.place;
    } };

    ghost invariant = { λ m. (m.written ≡ count_by (λ r. is_written r.mark) m.recipients.items)
        × (length m.recipients.items < 2 ^ 32) };
}

pub(crate) fn is_marked(mark: Mark) -> bool
    ensures { result ≡ is_marked mark }
{
    match mark {
        Mark::Unmarked => false,
        _ => true,
    }
}

pub(crate) fn is_written(mark: Mark) -> bool
    ensures { result ≡ is_written mark }
{
    match mark {
        Mark::Written => true,
        _ => false,
    }
}

pub(crate) fn is_active(place: Place) -> bool
    ensures { result ≡ is_active place }
{
    match place {
        Place::Active => true,
        _ => false,
    }
}

pub(crate) fn is_incoming(place: Place) -> bool
    ensures { result ≡ is_incoming place }
{
    match place {
        Place::Incoming => true,
        _ => false,
    }
}

/// How many of these marks a crash may still lose.
pub(crate) fn count_written(recipients: &[Recipient]) -> usize
    ensures { result ≡ count_by (λ r. is_written r.mark) recipients.now }
{
    recipients
        .iter()
        .filter(|recipient| is_written(recipient.mark))
        .count()
}

/// Whether one of these failures is of the position.
fn has_position(failures: &[Failure], position: usize) -> bool
    ensures is { result ≡ list_any (λ f. f.position == position) failures.now }
    ensures few { IsTrue result → position < 2 ^ 32 }
{
    failures
        .iter()
        .any(|failure| failure.position as usize == position)
}

impl Message {
    pub(crate) fn is_logged(&self, position: usize) -> bool
        ensures is { result ≡ is_logged self.now position }
        ensures few { IsTrue result → position < 2 ^ 32 }
    {
        has_position(&self.failures, position)
    }

    /// How many recipients there are.
    pub(crate) fn count(&self) -> usize
        ensures { result ≡ length self.now.recipients }
    {
        self.recipients.len()
    }

    /// The same number, as positions are counted.
    pub(crate) fn recipient_count(&self) -> u32
        ensures { result ≡ length self.now.recipients }
    {
        self.recipients.len() as u32
    }

    pub(crate) fn is_pending(&self, position: usize) -> bool
        ensures { result ≡ passes_in self.now (is_open self.now) position }
    {
        match self.recipients.get(position) {
            Some(recipient) => !(is_marked(recipient.mark) || self.is_logged(position)),
            None => false,
        }
    }

    /// The address of a recipient.
    pub(crate) fn address(&self, position: usize) -> Option<&Address>
        ensures { option_copied result
            ≡ option_map (λ r. r.address) (slice_get self.now.recipients position) }
    {
        match self.recipients.get(position) {
            Some(recipient) => Some(&recipient.address),
            None => None,
        }
    }

    pub(crate) fn is_unmarked(&self, position: usize) -> bool
        ensures { result ≡ is_unmarked_at self.now position }
    {
        match self.recipients.get(position) {
            Some(recipient) => !is_marked(recipient.mark),
            None => false,
        }
    }

    /// Whether the position is logged and not marked.
    fn lacks_mark(&self, position: usize) -> bool
        ensures is { result ≡ passes_in self.now (lacks_mark self.now) position }
        ensures few { IsTrue result → position < 2 ^ 32 }
    {
        match self.recipients.get(position) {
            Some(recipient) => !is_marked(recipient.mark) && self.is_logged(position),
            None => false,
        }
    }

    /// The least position that is pending.
    fn first_pending(&self) -> Option<usize>
        ensures { result ≡ slice_get (pending self.now) 0 }
    {
        for position in 0..self.count() {
            if self.is_pending(position) {
                return Some(position);
            }
        }
        None
    }

    /// Whether a recipient is pending.
    #[tactic(auto, using(crate::proofs::PlaceLaws::none_first))]
    pub(crate) fn has_pending(&self) -> bool
        ensures { result ≡ not (has_none (pending self.now)) }
    {
        self.first_pending().is_some()
    }

    /// The least position that is logged and not marked.
    pub(crate) fn unmarked_logged(&self) -> Option<usize>
        ensures is { result ≡ slice_get (unmarked_logged self.now) 0 }
        ensures few { IfSome result (λ p. p < 2 ^ 32) }
    {
        for position in 0..self.count() {
            if self.lacks_mark(position) {
                return Some(position);
            }
        }
        None
    }

    /// Whether no position is logged and not marked.
    #[tactic(auto, using(crate::proofs::PlaceLaws::no_first))]
    pub(crate) fn has_marks(&self) -> bool
        ensures { result ≡ has_none (unmarked_logged self.now) }
    {
        self.unmarked_logged().is_none()
    }

    /// How many marks a crash may still lose.
    pub(crate) fn written_marks(&self) -> usize
        ensures { result ≡ length (written_marks self.now) }
    {
        self.written
    }

    /// Whether no crash may lose a mark.
    pub(crate) fn is_clean(&self) -> bool
        ensures { result ≡ is_clean self.now }
    {
        self.written_marks() == 0
    }

    /// Whether each recipient is done, for sure.
    pub(crate) fn is_done(&self) -> bool
        ensures { result ≡ is_done self.now }
    {
        !self.has_pending() && self.has_marks() && self.is_clean()
    }

    /// Whether its failures are to be told to its sender.
    pub(crate) fn wants_bounce(&self) -> bool
        ensures { result ≡ wants_bounce self.now }
    {
        !self.failures.is_empty() && self.sender.is_some() && !self.id.bounce
    }

    /// Whether the place is one of active or incoming.
    pub(crate) fn is_active(&self) -> bool
        ensures { result ≡ is_active self.now.place }
    {
        is_active(self.place)
    }
}
