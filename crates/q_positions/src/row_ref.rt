//! A row as it is read.
ghost use Rattle.std.specs.Prelude.{◌≡◌};
ghost use Rattle.q_positions.specs.Rows.{row_shown};

use q_model::{Id, Row, Site};

/// A row whose site and positions stand elsewhere. A contract sees the row that it shows.
#[derive(Clone, Copy, Debug)]
pub struct RowRef<'a> {
    pub id: Id,
    pub site: &'a Site,
    pub positions: &'a [u32],
}

impl<'a> RowRef<'a> {
    /// A row that has its own positions.
    pub fn of(row: &'a Row) -> RowRef<'a>
        ensures { row_shown result ≡ row.now }
    {
        RowRef {
            id: row.id,
            site: &row.site,
            positions: row.positions.as_slice(),
        }
    }
}
