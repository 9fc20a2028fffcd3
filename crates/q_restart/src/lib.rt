//! Opening a spool, with which each life begins (qmgr(8)).
//!
//! Opening looks first: a spool that is damaged, or whose generations are used up, is left as it
//! is. Then it clears away what earlier lives left unfinished, makes the failure logs sure that an
//! earlier life may have left unsure, and at last gives the spool its next generation. A crash
//! inside leaves the messages as they were, with the generation as before or raised.
#![tactic(auto)]

mod clearing;
mod error;
mod generation;
mod judging;
mod looking;
mod names;
mod opening;
mod places;
mod raising;
mod standing;

pub use error::OpenError;
pub use opening::{Spool, open_spool};
