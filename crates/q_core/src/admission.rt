//! Which file comes into memory next.
ghost use Rattle.std.specs.Prelude.{◌≡◌};
ghost use Rattle.q_core.specs.Facts.{picked, picked_next};
ghost use Rattle.q_core.specs.Rules.{admission_in, has_message_room_in, next_admission_in};

use crate::decision::{Decision, Found};
use crate::state::{Core, Seen};
use q_model::{Mode, Place};

impl Core {
    /// Whether another message may come into memory.
    fn has_message_room(&self) -> bool
        ensures { result ≡ has_message_room_in self.now }
    {
        let delivers = match self.mode {
            Mode::Deliver => true,
            Mode::Intake => false,
        };
        delivers
            && self.admitted.len() < self.params.qmgr_message_active_limit as usize
            && self.params.qmgr_message_recipient_minimum <= self.free()
    }

    /// The file of the queue that follows, or of the one that has a file.
    fn pick(&self, incoming: &Found, deferred: &Found) -> Option<Decision>
        ensures { result ≡ picked_next self.now.deferred_follows incoming.now deferred.now }
    {
        if incoming.is_nothing() {
            deferred.picked(deferred.deferred_place())
        } else if deferred.is_nothing() {
            incoming.picked(Place::Incoming)
        } else if self.deferred_follows {
            deferred.picked(deferred.deferred_place())
        } else {
            incoming.picked(Place::Incoming)
        }
    }

    /// What is picked, or the look at deferred that is still wanted.
    fn admission(&self, incoming: &Found) -> Option<Decision>
        ensures { result ≡ admission_in self.now incoming.now self.now.deferred self.now.scan }
    {
        match &self.scan {
            None => self.pick(incoming, &Found::Nothing),
            Some(scan) => match &self.deferred {
                Seen::Unknown => Some(Decision::LookDeferred {
                    after: scan.place,
                    until: scan.until,
                }),
                Seen::Known { found } => self.pick(incoming, found),
            },
        }
    }

    pub(crate) fn next_admission(&self) -> Option<Decision>
        ensures { result ≡ next_admission_in self.now self.now.incoming }
    {
        if !self.has_message_room() {
            return None;
        }
        match &self.incoming {
            Seen::Unknown => Some(Decision::LookIncoming),
            Seen::Known { found } => self.admission(found),
        }
    }
}
