//! The rows of a ledger: what a queue manager knows of its messages, deliveries and sites.
use crate::{Id, Moment, Positions, Site, Why};
use std::marker::Model;

/// Whether a recipient is marked as done in its queue file, and whether that is sure to outlive a
/// crash.
#[derive(Clone, Copy, Debug, PartialEq, Eq)]
pub enum Mark {
    Unmarked,
    Written,
    Synced,
}

/// Where a message stands, in `Deferred` with the moment from which it is due.
#[derive(Clone, Copy, Debug, PartialEq, Eq)]
pub enum Place {
    Incoming,
    Active,
    Deferred(Moment),
    Hold,
    Corrupt,
}

/// The name of a file in the deferred queue.
#[derive(Clone, Copy, Debug, PartialEq, Eq)]
pub struct DeferredName {
    pub due: Moment,
    pub id: Id,
}

/// A scan of the deferred queue: the name behind which it goes on, and the latest due time that
/// it takes.
#[derive(Clone, Copy, Debug, PartialEq, Eq)]
pub struct Scan {
    pub place: Option<DeferredName>,
    pub until: Moment,
}

/// A request for a scan of the deferred queue, of the messages that are due or of all.
#[derive(Clone, Copy, Debug, PartialEq, Eq)]
pub enum Request {
    Due,
    All,
}

/// A message in memory, and the first of its recipients that wasn't read.
#[derive(Clone, Copy, Debug, PartialEq, Eq)]
pub struct Admitted {
    pub id: Id,
    pub unread: u32,
}

/// Recipients of one message at one site: the unit of one delivery.
#[derive(Debug, Drop)]
pub struct Row {
    pub id: Id,
    pub site: Site,
    pub positions: Positions,
}

/// A delivery in flight. Numbers count from 1 in each life.
#[derive(Debug, Drop)]
pub struct Delivery {
    pub number: u64,
    pub row: Row,
}

/// The number of a message's last delivery to a site where it waits. A contract sees it as the
/// record of the three.
#[derive(Clone, Copy, Debug, PartialEq, Eq)]
pub struct Served {
    pub id: Id,
    pub site: Site,
    pub last: u64,
}

impl Model for Served {
    ghost use Rattle.q_model.specs.Values.{Served as ServedValue};

    ghost Value = { ServedValue };

    ghost view = { λ s. record { id = s.id; site = s.site; last = s.last } };

    ghost inverse = { λ v. record { id = v.id; site = v.site; last = v.last } };
}

/// What an outcome still needs: a record in the failure log and then a mark, or a mark alone.
#[derive(Clone, Copy, Debug, PartialEq, Eq)]
pub enum Need {
    Log { why: Why, code: u16 },
    Mark,
}

/// A recipient whose outcome isn't on disk yet.
#[derive(Clone, Copy, Debug, PartialEq, Eq)]
pub struct Unsettled {
    pub id: Id,
    pub position: u32,
    pub need: Need,
}

/// Whether a site is dead, and until when.
#[derive(Clone, Copy, Debug, PartialEq, Eq)]
pub enum Health {
    Alive,
    DeadUntil(Moment),
}

/// What is known of a site: its concurrency window, the feedback that hasn't come to a
/// whole step yet, and its failed cohorts, in parts of a whole (SCHEDULER_README); and the moment
/// up to which it rests after a delivery, where it does. A contract sees it as the record of these.
#[derive(Clone, Copy, Debug, PartialEq, Eq)]
pub struct SiteRecord {
    pub site: Site,
    pub window: u8,
    pub success: u64,
    pub failure: u64,
    pub cohorts: u64,
    pub health: Health,
    pub rest: Option<Moment>,
}

impl Model for SiteRecord {
    ghost use Rattle.q_model.specs.Values.{SiteRecord as SiteRecordValue};

    ghost Value = { SiteRecordValue };

    ghost view = { λ r. record {
      site = r.site;
      window = r.window;
      success = r.success;
      failure = r.failure;
      cohorts = r.cohorts;
      health = r.health;
      rest = r.rest;
    } };

    ghost inverse = { λ v. record {
      site = v.site;
      window = v.window;
      success = v.success;
      failure = v.failure;
      cohorts = v.cohorts;
      health = v.health;
      rest = v.rest;
    } };
}
