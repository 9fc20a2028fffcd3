//! Which file is picked next: incoming and deferred give by turns.
ghost use Rattle.std.specs.Prelude.{◌≡◌, filter_map, option_map};
ghost use Rattle.q_model.specs.Alternation.{after_pick, deferred_next, is_pick, passed, pick, pick_id, pick_of, pick_with};
ghost use Rattle.q_model.specs.Book.{ids_at};
ghost use Rattle.q_model.specs.Ids.{id_before};
ghost use Rattle.q_model.specs.Lists.{least};
ghost use Rattle.q_model.specs.Places.{is_incoming};
ghost use Rattle.q_ledger.specs.Best.{best_with};
ghost use Rattle.q_ledger.specs.Changed.{come_to, with_ledger};
ghost use Rattle.q_ledger.specs.Picks.{incoming_id, pick_is};

use crate::book::Book;
use crate::ids::same_id;
use crate::ledger::Ledger;
use crate::leftovers::lesser;
use crate::message::{Message, is_incoming};
use q_model::{DeferredName, Id, Scan};

/// Which queue gives, and the name that it gives.
#[derive(Clone, Copy, Debug)]
pub(crate) enum Picked {
    Incoming { id: Id },
    Deferred { name: DeferredName },
}

impl Picked {
    pub(crate) fn id(&self) -> Id
        ensures { result ≡ pick_id (pick_is self.now) }
    {
        match self {
            Picked::Incoming { id } => *id,
            Picked::Deferred { name } => name.id,
        }
    }
}

/// The id of a message in incoming.
fn incoming_id(message: &Message) -> Option<Id>
    ensures { result ≡ incoming_id message.now }
{
    if is_incoming(message.place) {
        Some(message.id)
    } else {
        None
    }
}

/// The lesser of an id, where there is one, and of the least behind it.
fn lesser_of(id: Option<Id>, least: Option<Id>) -> Option<Id>
    ensures { result ≡ best_with id_before id least }
{
    match id {
        Some(id) => lesser(id, least),
        None => least,
    }
}

/// The least id of these messages in incoming.
fn least_incoming(messages: &[Message]) -> Option<Id>
    ensures { result ≡ least id_before (filter_map incoming_id messages.now) }
{
    let mut least = None;
    let mut i = messages.len();
    while i > 0 {
        i -= 1;
        let message = &messages[i];
        least = lesser_of(incoming_id(message), least);
    }
    least
}

/// A scan that has come to the name.
fn at_name(scan: Option<Scan>, name: DeferredName) -> Option<Scan>
    ensures { result ≡ option_map (come_to name) scan }
{
    match scan {
        Some(scan) => Some(Scan {
            place: Some(name),
            until: scan.until,
        }),
        None => None,
    }
}

impl Book {
    /// The least id in incoming.
    pub(crate) fn incoming_next(&self) -> Option<Id>
        ensures { result ≡ least id_before (ids_at is_incoming self.now) }
    {
        least_incoming(&self.messages)
    }
}

fn pick_with(deferred_follows: bool, id: Id, scanned: Option<DeferredName>) -> Picked
    ensures { pick_is result ≡ pick_with deferred_follows id scanned }
{
    match scanned {
        Some(name) => {
            if deferred_follows {
                Picked::Deferred { name }
            } else {
                Picked::Incoming { id }
            }
        }
        None => Picked::Incoming { id },
    }
}

/// What is picked, where these are the next of incoming and of the scan.
fn pick_of(
    deferred_follows: bool,
    incoming: Option<Id>,
    scanned: Option<DeferredName>,
) -> Option<Picked>
    ensures { option_map pick_is result ≡ pick_of deferred_follows incoming scanned }
{
    match incoming {
        Some(id) => Some(pick_with(deferred_follows, id, scanned)),
        None => match scanned {
            Some(name) => Some(Picked::Deferred { name }),
            None => None,
        },
    }
}

impl Ledger {
    /// The scan's next name.
    fn deferred_next(&self) -> Option<DeferredName>
        ensures { result ≡ deferred_next self.now.ledger }
    {
        match self.scan {
            Some(scan) => self.book.scan_next(&scan),
            None => None,
        }
    }

    /// What is picked next.
    pub(crate) fn pick(&self) -> Option<Picked>
        ensures { option_map pick_is result ≡ pick self.now.ledger }
    {
        pick_of(
            self.deferred_follows,
            self.book.incoming_next(),
            self.deferred_next(),
        )
    }

    /// Whether the id is what is picked next.
    pub(crate) fn is_pick(&self, id: Id) -> bool
        ensures { result ≡ is_pick self.now.ledger id }
    {
        match self.pick() {
            Some(pick) => same_id(pick.id(), id),
            None => false,
        }
    }

    /// The turn passes, and the walk of deferred goes on behind the name.
    fn pass(&mut self, pick: Picked)
        ensures { self.new ≡ with_ledger self.old (passed (pick_is pick) self.old.ledger) }
    {
        match pick {
            Picked::Incoming { .. } => {
                self.deferred_follows = true;
            }
            Picked::Deferred { name } => {
                self.deferred_follows = false;
                self.scan = at_name(self.scan, name);
            }
        }
    }

    /// The turn passes, where there is something to pick.
    pub(crate) fn pass_pick(&mut self)
        ensures { self.new ≡ with_ledger self.old (after_pick self.old.ledger) }
    {
        if let Some(pick) = self.pick() {
            self.pass(pick);
        }
    }
}
