//! Why a tool gives up.
ghost use Rattle.std.specs.Prelude.{◌≡◌};

use q_replay::ReplayError;
use q_super::SuperError;
use thiserror::Error;

/// Why a tool gives up. What was told before it stands on disk.
#[derive(Clone, Copy, Debug, PartialEq, Eq, Error)]
pub enum ToolError {
    /// Its life didn't come to its end.
    #[error("{0}")]
    Life(ReplayError),
    /// The act, behind the life's end, wasn't done or not whole.
    #[error("{0}")]
    Act(SuperError),
}
