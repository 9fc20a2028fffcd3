//! Decisions, and what was found on disk.
ghost use Rattle.std.specs.Prelude.{◌≡◌};
ghost use Rattle.q_core.specs.Deciding.{is_asking};
ghost use Rattle.std.specs.Prelude.{◌-◌};
ghost use Rattle.q_core.specs.Facts.{deferred_place, file_pending, file_wants_bounce, is_damaged, is_nothing, picked_decision};

use q_model::{DeferredName, Failure, Id, Moment, Place, Site};

/// What is to be done next, or is to be looked at or read before that is known.
#[derive(Clone, Copy, Debug)]
pub enum Decision {
    Log {
        id: Id,
        failure: Failure,
    },
    Mark {
        id: Id,
        position: u32,
    },
    Sync {
        id: Id,
    },
    /// A row of the message that waited at the site, which is dead, is put off. `row_positions` of
    /// the number `entry` answers its positions until the next decision.
    Skip {
        id: Id,
        site: Site,
        entry: u32,
    },
    Defer {
        id: Id,
        due: Moment,
    },
    Back {
        id: Id,
    },
    Bounce {
        id: Id,
    },
    Remove {
        id: Id,
    },
    /// The damaged file stands at this place.
    Corrupt {
        id: Id,
        place: Place,
    },
    /// The message stands at this place.
    Admit {
        id: Id,
        place: Place,
    },
    Preempt {
        child: Id,
        parent: Id,
        transport: u8,
        need: u32,
    },
    Start {
        number: u64,
        id: Id,
        site: Site,
    },
    /// At most `max` recipients of the message from the position `from` on are wanted.
    Read {
        id: Id,
        from: u32,
        max: u32,
    },
    /// The least id in active that isn't in memory is wanted.
    LookActive,
    /// The least id in incoming is wanted.
    LookIncoming,
    /// The first name in deferred behind `after` is wanted, of those that are due by `until`.
    LookDeferred {
        after: Option<DeferredName>,
        until: Moment,
    },
}

/// What the head and the failure log of a queue file say. Where there is no log, `failures` is 0
/// and `unmarked` None, and the head alone tells the rest.
#[derive(Clone, Copy, Debug)]
pub struct FileFacts {
    pub arrival: Moment,
    pub null_sender: bool,
    pub recipients: u32,
    /// How many recipients are marked.
    pub marked: u32,
    /// How many failures the log has.
    pub failures: u32,
    /// The least position that is logged and not marked.
    pub unmarked: Option<u32>,
    /// Whether incoming has the bounce.
    pub bounced: bool,
    /// Whether it is no bounce, or the message that it is of is gone.
    pub alone: bool,
}

/// The answer to a look: nothing, a damaged file, or a queue file. `due` is the moment that the
/// name of a file in deferred has, and 0 in the other areas.
#[derive(Clone, Copy, Debug)]
pub enum Found {
    Nothing,
    Damaged {
        id: Id,
        due: Moment,
        alone: bool,
    },
    Whole {
        id: Id,
        due: Moment,
        file: FileFacts,
    },
}

impl Decision {
    /// Whether it is a look or a read.
    pub(crate) fn is_asking(&self) -> bool
        ensures { result ≡ is_asking self.now }
    {
        match self {
            Decision::Read { .. } => true,
            Decision::LookActive => true,
            Decision::LookIncoming => true,
            Decision::LookDeferred { .. } => true,
            _ => false,
        }
    }
}

impl FileFacts {
    /// How many recipients are pending, where none is logged and not marked.
    pub(crate) fn pending(&self) -> u32
        ensures { result ≡ file_pending self.now }
    {
        self.recipients.saturating_sub(self.marked)
    }

    /// Whether its failures are to be told to its sender.
    pub(crate) fn wants_bounce(&self, id: Id) -> bool
        ensures { result ≡ file_wants_bounce self.now id }
    {
        self.failures > 0 && !self.null_sender && !id.bounce
    }
}

impl Found {
    pub(crate) fn is_nothing(&self) -> bool
        ensures { result ≡ is_nothing self.now }
    {
        match self {
            Found::Nothing => true,
            _ => false,
        }
    }

    pub(crate) fn is_damaged(&self) -> bool
        ensures { result ≡ is_damaged self.now }
    {
        match self {
            Found::Damaged { .. } => true,
            _ => false,
        }
    }

    /// The place in deferred that the name says.
    pub(crate) fn deferred_place(&self) -> Place
        ensures { result ≡ deferred_place self.now }
    {
        match self {
            Found::Nothing => Place::Deferred(0),
            Found::Damaged { due, .. } => Place::Deferred(*due),
            Found::Whole { due, .. } => Place::Deferred(*due),
        }
    }

    /// What is done with the file that is picked at this place: it is admitted, or moved away
    /// where it is damaged.
    pub(crate) fn picked(&self, place: Place) -> Option<Decision>
        ensures { result ≡ picked_decision place self.now }
    {
        match self {
            Found::Nothing => None,
            Found::Damaged { id, alone, .. } => {
                if *alone {
                    Some(Decision::Corrupt { id: *id, place })
                } else {
                    None
                }
            }
            Found::Whole { id, file, .. } => {
                if file.alone {
                    Some(Decision::Admit { id: *id, place })
                } else {
                    None
                }
            }
        }
    }
}
