//! The state of the core.
ghost use Rattle.std.specs.List.{list_all};
ghost use Rattle.std.specs.Prelude.{◌≡◌, ◌≤◌, find, true};
ghost use Rattle.std.specs.Option.{option_copied};
ghost use Rattle.q_core.specs.Facts.{IsSeenDated};
ghost use Rattle.q_core.specs.Held.{is_dead_in, slot_in};
ghost use Rattle.q_core.specs.Rooms.{is_loggable};
ghost use Rattle.q_settings.specs.Ranges.{IsInRange};

use crate::clock::Clock;
use crate::decision::Found;
use crate::touched::Touched;
use q_dest::Sites;
use q_flights::Flights;
use q_held::Rows;
use q_model::{Id, Mode, Moment, Request, Scan, Site, Unsettled};
use q_open_rows::OpenRows;
use q_pool::{Pool, Slot};
use q_positions::{Lists, RowList};
use q_queue::Queue;
use q_schedule::Schedule;
use q_settings::Params;
use std::marker::Model;

/// What a look has shown, while it holds.
#[derive(Clone, Copy, Debug)]
pub enum Seen {
    Unknown,
    Known { found: Found },
}

/// What the last decision asks for, until it is answered.
#[derive(Clone, Copy, Debug)]
pub enum Question {
    Nothing,
    Active,
    Incoming,
    Deferred,
    /// At most `max` recipients of the message from the position `from` on.
    Recipients { id: Id, from: u32, max: u32 },
}

/// What is known in one life of a queue manager, without names on disk and without texts.
#[derive(Debug, Drop)]
pub struct Core {
    pub(crate) params: Params,
    pub(crate) transports: u8,
    pub(crate) mode: Mode,
    pub(crate) clock: Clock,
    pub(crate) timed: bool,
    pub(crate) next_run: Moment,
    pub(crate) scan: Option<Scan>,
    pub(crate) asked: Option<Request>,
    pub(crate) ignores: bool,
    pub(crate) deferred_follows: bool,
    pub(crate) admitted: Pool,
    pub(crate) waiting: Rows,
    pub(crate) flights: Flights,
    /// Recipients that are waiting, in flight or unsettled.
    pub(crate) in_memory: u64,
    pub(crate) unsettled: Queue<Unsettled>,
    pub(crate) schedule: Schedule,
    pub(crate) sites: Sites,
    /// The message of an earlier life that was synced last.
    pub(crate) synced: Option<Id>,
    pub(crate) starts: u64,
    pub(crate) active: Seen,
    pub(crate) incoming: Seen,
    pub(crate) deferred: Seen,
    pub(crate) question: Question,
    /// The sites of the recipients that were read since the last `Read`, in order.
    pub(crate) named: Vec<Site>,
    /// The number of the row that was put off last, 0 for none, and its positions, as the one list.
    pub(crate) skips: u32,
    pub(crate) skipped: Lists,
    /// The messages that entries touched since the core was tidied.
    pub(crate) touched_message: Touched<Id>,
    /// The rows of the last load, and where those stood that recipients may join.
    pub(crate) rows: RowList,
    pub(crate) open_rows: OpenRows,
}

impl Model for Core {
    ghost use Rattle.q_core.specs.State.{State};

    ghost Value = { State };

    ghost use Rattle.q_core.specs.View.{state_of};

    ghost view = { state_of };

    ghost use Rattle.q_core.specs.Rooms.{AreWithinBounds, HasRoomForLoads, HasRoomForPositions};
    ghost use Rattle.q_core.specs.Ties.{AreMessagesTied, AreSitesTied, AreSuspended, AreTied, AreTurnsTied, goes_to_dead};
    ghost use Rattle.q_core.specs.Touched.{IsTidyBut};
    ghost use Rattle.q_held.specs.Held.{AreHeldBy, rows_of};
    ghost use Rattle.q_pool.specs.Kept.{heads};

    ghost invariant = { λ a. AreTied a.params a.admitted (rows_of a.waiting.items)
        a.flights.items a.unsettled.items a.starts
        × IsTidyBut a.touched_message (heads a.admitted.items) (rows_of a.waiting.items)
        a.schedule.lines
        × AreSitesTied a.sites.items (rows_of a.waiting.items) a.flights.items
        × AreTurnsTied a.schedule.peers (rows_of a.waiting.items) a.starts
        × AreHeldBy (goes_to_dead a.sites.items) a.waiting.items
        × AreMessagesTied a.params a.schedule (heads a.admitted.items)
        × AreWithinBounds a.params a.transports a.flights a.question a.named a.unsettled a.deferred
        × HasRoomForLoads a.params a.transports a.waiting.room a.sites.room a.schedule.room
        a.schedule.line_room
        × HasRoomForPositions a.params a.waiting.most a.flights.most a.skipped a.rows.room
        a.rows.most a.open_rows.room
        × AreSuspended a.sites.items a.schedule.suspended };
}

impl Core {
    /// The message in memory with this id.
    pub(crate) fn slot(&self, id: Id) -> Option<&Slot>
        ensures { option_copied result ≡ slot_in self.now id }
    {
        match self.admitted.get(id) {
            Some(kept) => Some(&kept.slot),
            None => None,
        }
    }

    /// What it holds is within bounds: this does nothing, and is there for proofs that need it.
    pub(crate) fn stand_within(&self)
        ensures params { IsInRange self.now.params }
        ensures early { self.now.clock.seconds ≤ 999990000000 }
        ensures codes { list_all is_loggable self.now.unsettled ≡ true }
        ensures dated { IsSeenDated self.now.deferred }
    {
        let _least = self.params.qmgr_message_recipient_minimum;
        let _now = self.clock.seconds;
    }

    pub(crate) fn is_dead_site(&self, site: &Site) -> bool
        ensures { result ≡ is_dead_in self.now site.now }
    {
        self.sites.is_dead(site)
    }
}
