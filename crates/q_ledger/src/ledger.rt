//! The ledger: the book, and what is known in this life.

use crate::admitted::Slot;
use crate::book::Book;
use crate::clock::Clock;
use crate::line::Line;
use crate::site_record::WideSiteRecord;
use crate::waiting::Waiting;
use q_model::{Delivery, Id, Mode, Moment, Request, Scan, Served, Site, Unsettled};
use std::marker::Model;

/// The lists and numbers of a ledger, but for the entries of this life. A contract sees them as the
/// ledger without contents and without these entries.
#[derive(Debug, Drop)]
pub(crate) struct Ledger {
    pub(crate) book: Book,
    pub(crate) mode: Mode,
    pub(crate) clock: Clock,
    pub(crate) timed: bool,
    pub(crate) next_run: Moment,
    pub(crate) scan: Option<Scan>,
    pub(crate) asked: Option<Request>,
    pub(crate) ignores: bool,
    pub(crate) deferred_follows: bool,
    pub(crate) admitted: Vec<Slot>,
    /// The messages in active that are not in memory.
    pub(crate) leftovers: Vec<Id>,
    pub(crate) waiting: Waiting,
    pub(crate) flights: Vec<Delivery>,
    pub(crate) served: Vec<Served>,
    pub(crate) unsettled: Vec<Unsettled>,
    pub(crate) lines: Vec<Line>,
    pub(crate) sites: Vec<WideSiteRecord>,
    pub(crate) synced: Vec<Id>,
    /// The site that a row has left by the entry that is being taken.
    pub(crate) left: Option<Site>,
}

impl Model for Ledger {
    ghost use Rattle.q_ledger.specs.State.{State};

    ghost Value = { State };

    ghost use Rattle.std.specs.Prelude.{map, []};
    ghost use Rattle.q_ledger.specs.Slots.{row_of_slot};

    ghost view = { λ l. record {
      ledger = record {
        book = l.book;
        mode = l.mode;
        now = l.clock.seconds;
        timed = l.timed;
        next_run = l.next_run;
        scan = l.scan;
        asked = l.asked;
        ignores = l.ignores;
        deferred_follows = l.deferred_follows;
        admitted = map row_of_slot l.admitted.items;
        waiting = l.waiting;
        flights = l.flights.items;
        served = l.served.items;
        unsettled = l.unsettled.items;
        lines = l.lines.items;
        sites = l.sites.items;
        synced = l.synced.items;
        past = [];
      };
      slots = l.admitted.items;
      leftovers = l.leftovers.items;
      left = l.left;
    } };
}
