//! The line of a transport.
ghost use Rattle.std.specs.Prelude.{◌≡◌, []};

use q_model::Id;
use std::alloc::Global;
use std::marker::Model;

/// The jobs of a transport in their order. A contract sees them as the list of their ids.
#[derive(Debug, Drop)]
pub(crate) struct Line {
    pub(crate) ids: Vec<Id>,
}

impl Model for Line {
    ghost use Rattle.std.specs.Prelude.{List};
    ghost use Rattle.q_model.specs.declared.id.Id.{Id};

    ghost Value = { List Id };

    ghost view = { λ line. line.ids.items };
}

impl Line {
    /// A line without a job.
    pub(crate) fn new(alloc: Global) -> Line
        ensures { result ≡ [] }
    {
        Line {
            ids: Vec::new(alloc),
        }
    }

    /// The jobs.
    pub(crate) fn jobs(&self) -> &[Id]
        ensures { result.now ≡ self.now }
    {
        self.ids.as_slice()
    }
}
