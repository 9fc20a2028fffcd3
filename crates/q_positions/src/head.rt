//! Rows without their positions.
ghost use Rattle.std.specs.Prelude.{◌≡◌, option_map, Some};
ghost use Rattle.q_positions.specs.Heads.{row_of};
ghost use Rattle.q_positions.specs.Rows.{row_shown};

use crate::row_ref::RowRef;
use q_model::{Id, Site};

/// The message and the site of a row.
#[derive(Debug, Drop)]
pub(crate) struct Head {
    pub(crate) id: Id,
    pub(crate) site: Site,
}

impl Head {
    /// The head of a row.
    pub(crate) fn of(row: RowRef<'_>) -> Head
        ensures { row_of result row.entry.positions.now ≡ row_shown row.entry }
    {
        Head {
            id: row.id,
            site: *row.site,
        }
    }

    /// The row of these positions.
    pub(crate) fn with<'a>(&'a self, positions: &'a [u32]) -> RowRef<'a>
        ensures { row_shown result ≡ row_of self.now positions.now }
    {
        RowRef {
            id: self.id,
            site: &self.site,
            positions,
        }
    }
}
