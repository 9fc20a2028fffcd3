//! Scans of the deferred queue.
ghost use Rattle.std.specs.Prelude.{◌≡◌, filter_map, true};
ghost use Rattle.std.specs.Option.{option_map_or};
ghost use Rattle.q_model.specs.Lists.{least};
ghost use Rattle.q_model.specs.Scans.{ask_scan, deferred_name, end_scan, is_ahead, joined_request, live, name_before, new_scan, scan_next, tidy_scan};
ghost use Rattle.q_ledger.specs.Best.{best_with};
ghost use Rattle.q_ledger.specs.Changed.{with_ledger};
ghost use Rattle.q_ledger.specs.Picks.{name_ahead};

use crate::book::Book;
use crate::clock::Clock;
use crate::ids::is_before;
use crate::ledger::Ledger;
use crate::message::Message;
use q_model::{DeferredName, Place, Request, Scan};

/// Whether the first stands before the second: by due time, and then by id.
fn is_name_before(a: &DeferredName, b: &DeferredName) -> bool
    ensures { result ≡ name_before a.now b.now }
{
    a.due < b.due || a.due == b.due && is_before(a.id, b.id)
}

/// The name of a message in deferred.
fn deferred_name(message: &Message) -> Option<DeferredName>
    ensures { result ≡ deferred_name message.now.place message.now.id }
{
    match message.place {
        Place::Deferred(due) => Some(DeferredName {
            due,
            id: message.id,
        }),
        Place::Incoming => None,
        Place::Active => None,
        Place::Hold => None,
        Place::Corrupt => None,
    }
}

/// Whether the scan is behind the name.
fn is_behind(scan: &Scan, name: &DeferredName) -> bool
    ensures { result ≡ option_map_or (λ p. name_before p name.now) scan.now.place true }
{
    match scan.place {
        Some(place) => is_name_before(&place, name),
        None => true,
    }
}

/// Whether the scan hasn't come to the name, and takes it.
fn is_ahead(scan: &Scan, name: &DeferredName) -> bool
    ensures { result ≡ is_ahead scan.now name.now }
{
    name.due <= scan.until && is_behind(scan, name)
}

/// The name of a message in deferred that is ahead of the scan.
fn name_ahead(scan: &Scan, message: &Message) -> Option<DeferredName>
    ensures { result ≡ name_ahead scan.now message.now }
{
    match deferred_name(message) {
        Some(name) => {
            if is_ahead(scan, &name) {
                Some(name)
            } else {
                None
            }
        }
        None => None,
    }
}

/// The scan that a request opens.
fn new_scan(clock: Clock, request: Request) -> Scan
    ensures { result ≡ new_scan clock.seconds request }
{
    let until = match request {
        Request::Due => clock.seconds,
        Request::All => 999_999_999_999,
    };
    Scan { place: None, until }
}

/// Of two requests the one for all wins.
fn joined(asked: Option<Request>, request: Request) -> Request
    ensures { result ≡ joined_request asked request }
{
    match asked {
        Some(Request::All) => Request::All,
        _ => request,
    }
}

/// The lesser of a name, where there is one, and of the least behind it.
fn lesser_name(name: Option<DeferredName>, least: Option<DeferredName>) -> Option<DeferredName>
    ensures { result ≡ best_with name_before name least }
{
    match (name, least) {
        (Some(name), Some(other)) => {
            if is_name_before(&other, &name) {
                Some(other)
            } else {
                Some(name)
            }
        }
        (Some(name), None) => Some(name),
        (None, least) => least,
    }
}

/// The least name of these messages that is ahead of the scan.
fn least_ahead(messages: &[Message], scan: &Scan) -> Option<DeferredName>
    ensures { result ≡ least name_before (filter_map (name_ahead scan.now) messages.now) }
{
    let mut least = None;
    let mut i = messages.len();
    while i > 0 {
        i -= 1;
        let message = &messages[i];
        least = lesser_name(name_ahead(scan, message), least);
    }
    least
}

impl Book {
    /// The next name of a scan.
    pub(crate) fn scan_next(&self, scan: &Scan) -> Option<DeferredName>
        ensures { result ≡ scan_next self.now scan.now }
    {
        least_ahead(&self.messages, scan)
    }
}

impl Ledger {
    /// Asks for a scan, which ignores due times where it was told so.
    pub(crate) fn ask_scan(&mut self)
        ensures { self.new ≡ with_ledger self.old (ask_scan self.old.ledger) }
    {
        let request = if self.ignores {
            Request::All
        } else {
            Request::Due
        };
        match self.scan {
            None => {
                self.scan = Some(new_scan(self.clock, request));
            }
            Some(_) => {
                self.asked = Some(joined(self.asked, request));
            }
        }
        self.ignores = false;
    }

    /// The scan, where it has a next name.
    fn live(&self, scan: Scan) -> Option<Scan>
        ensures { result ≡ live self.now.ledger.book scan }
    {
        match self.book.scan_next(&scan) {
            Some(_) => Some(scan),
            None => None,
        }
    }

    /// A scan is over, and one that was asked for meanwhile opens.
    fn end_scan(&mut self)
        ensures { self.new ≡ with_ledger self.old
            (end_scan self.old.ledger self.old.ledger.asked) }
    {
        match self.asked {
            None => {
                self.scan = None;
            }
            Some(request) => {
                self.scan = self.live(new_scan(self.clock, request));
                self.asked = None;
            }
        }
    }

    /// A scan without a next name is over.
    pub(crate) fn tidy_scan(&mut self)
        ensures { self.new ≡ with_ledger self.old (tidy_scan self.old.ledger) }
    {
        if let Some(scan) = self.scan {
            if self.book.scan_next(&scan).is_none() {
                self.end_scan();
            }
        }
    }
}
