//! Which names of an area are looked for.
ghost use Rattle.std.specs.Prelude.{IfNone, IfSome, List, ℕ};
ghost use Rattle.q_look.specs.FirstNames.{NamesDue, NamesId, NamesLeftover};
ghost use Rattle.q_model.specs.declared.rows.DeferredName.{DeferredName as FileName};

use q_core::Core;
use q_model::{DeferredName, Moment, Name, due_of, id_of};

/// What picks out names of an area.
pub(crate) trait Wanted {
    /// The name is one that is looked for, and is that of this file.
    ghost names: { Self → List ℕ → FileName → Type 0 };

    /// The file of this name, where the name is looked for. Where a name says no due time, that of
    /// the file is 0.
    fn file_of(&self, name: Name) -> Option<DeferredName>
        ensures some { IfSome result (names self.now name) }
        ensures none { IfNone result ((file : FileName) → names self.now name file → ⊥) };
}

/// Each name of an id.
#[derive(Clone, Copy)]
pub(crate) struct EveryId;

impl Wanted for EveryId {
    ghost names = { λ _. NamesId };

    fn file_of(&self, name: Name) -> Option<DeferredName> {
        let id = id_of(name)?;
        Some(DeferredName { due: 0, id })
    }
}

/// Each name of an id that the core doesn't have in memory.
impl Wanted for Core {
    ghost names = { NamesLeftover };

    fn file_of(&self, name: Name) -> Option<DeferredName> {
        let id = id_of(name)?;
        if self.is_admitted(id) {
            return None;
        }
        Some(DeferredName { due: 0, id })
    }
}

/// Each name of an id in deferred with a due time of at most this.
#[derive(Clone, Copy)]
pub(crate) struct DueBy {
    pub(crate) until: Moment,
}

impl Wanted for DueBy {
    ghost names = { λ w. NamesDue w.until };

    fn file_of(&self, name: Name) -> Option<DeferredName> {
        let (due, id) = due_of(name)?;
        if due > self.until {
            return None;
        }
        Some(DeferredName { due, id })
    }
}
