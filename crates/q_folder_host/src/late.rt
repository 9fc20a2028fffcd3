//! What was changed in folders and isn't durable yet.
//!
//! Metadata reach the disk in the order of their changes, but bytes that are written over others may
//! come before them. So a file that came to its place by a move, or rests on a log that did, is
//! written only once all is durable.
use q_model::{Area, Spot};
use std::alloc::Global;
use std::collections::BTreeSet;
use std::time::Duration;

/// How many milliseconds a change may wait.
const WAIT_MILLIS: u64 = 50;

/// What isn't durable yet.
#[derive(Drop)]
pub(crate) struct Late {
    // of each area, whether its folder changed
    changed: [bool; 10],
    // where files moved to
    moves: BTreeSet<Spot>,
    // whether a failure log came to its place
    log_came: bool,
    // since when something waits
    since: Option<Duration>,
    /// Whether some of it couldn't be made durable.
    pub(crate) is_lost: bool,
}

impl Late {
    /// Nothing yet.
    pub(crate) fn new(alloc: Global) -> Late {
        Late {
            changed: [false; 10],
            moves: BTreeSet::new(alloc),
            log_came: false,
            since: None,
            is_lost: false,
        }
    }

    /// Something waits from this moment on, if nothing did before.
    pub(crate) fn wait(&mut self, now: Option<Duration>) {
        if self.since.is_none() {
            self.since = now;
        }
    }

    /// Whether what waits has waited long enough by this moment; where no clock says so, it has.
    pub(crate) fn is_due(&self, now: Option<Duration>) -> bool {
        match (self.since, now) {
            (Some(since), Some(now)) => {
                now.saturating_sub(since) >= Duration::from_millis(WAIT_MILLIS)
            }
            _ => true,
        }
    }

    /// The folder of an area changed.
    pub(crate) fn change(&mut self, area: Area) {
        self.changed[area as usize] = true;
    }

    /// Whether the folder of an area changed.
    pub(crate) fn is_changed(&self, area: Area) -> bool {
        self.changed[area as usize]
    }

    /// A file moved to a place. Whether that can be noted.
    pub(crate) fn come(&mut self, spot: Spot) -> bool {
        self.log_came |= spot.area == Area::Bounce;
        self.moves.insert(spot).is_ok()
    }

    /// Whether bytes of the file at a place may be written only once all is durable.
    pub(crate) fn holds(&self, spot: Spot) -> bool {
        let marks = spot.area == Area::Active;
        self.moves.contains(&spot) || marks && self.log_came
    }

    /// All is durable.
    pub(crate) fn clear(&mut self) {
        self.changed = [false; 10];
        self.moves.clear();
        self.log_came = false;
        self.since = None;
    }
}
