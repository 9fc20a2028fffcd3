//! The acts: from where each takes messages, and where to.
ghost use Rattle.std.specs.Prelude.{◌≡◌};
ghost use Rattle.q_super.specs.Acts.{goal_of, takes_from, word_of};

use q_model::{Area, Place};

/// What is done with messages.
#[derive(Clone, Copy, Debug, PartialEq, Eq)]
pub enum Act {
    /// Mail that waits is held back.
    Hold,
    /// Mail that was held back comes in anew.
    Release,
    /// Deferred mail comes in anew, whenever it is due.
    Requeue,
    /// Mail that waits or was held back is given up: its pending recipients fail.
    Expire,
}

/// Whether the act takes messages from the area.
pub(crate) fn takes_from(act: Act, area: Area) -> bool
    ensures { result ≡ takes_from act area }
{
    match area {
        Area::Incoming => matches!(act, Act::Hold | Act::Expire),
        Area::Deferred => matches!(act, Act::Hold | Act::Requeue | Act::Expire),
        Area::Hold => matches!(act, Act::Release | Act::Expire),
        _ => false,
    }
}

/// Where messages stand behind the act.
pub(crate) fn goal_of(act: Act) -> Place
    ensures { result ≡ goal_of act }
{
    match act {
        Act::Hold => Place::Hold,
        Act::Release => Place::Incoming,
        Act::Requeue => Place::Incoming,
        Act::Expire => Place::Active,
    }
}

/// The word with which the act is told.
pub(crate) fn word_of(act: Act) -> &'static [u8]
    ensures { result.now ≡ word_of act }
{
    match act {
        Act::Hold => b"hold",
        Act::Release => b"release",
        Act::Requeue => b"requeue",
        Act::Expire => b"expire",
    }
}
