//! The table of a list of counts.
ghost use Rattle.std.specs.Prelude.{IfOk};
ghost use Rattle.q_shape.specs.Buckets.{IsShape};
ghost use Rattle.q_shape.specs.Tables.{IsTable};

use crate::age_table::AgeTable;
use crate::options::ShapeOptions;
use q_model::{Bytes, Counted, NoMemory};
use std::alloc::Global;

/// The table of what was counted: a line with the limits of the buckets in minutes, one for all, and
/// one for each domain, greater numbers first. Ages are in seconds, and a bucket has those below
/// its limit and not below the one before. A name has 24 places and a number 6; a longer text is
/// written whole.
pub fn shape(alloc: Global, counted: &Counted, options: &ShapeOptions) -> Result<Bytes, NoMemory>
    requires { IsShape options.now }
    ensures { IfOk result (λ text. IsTable options.now counted.now text) }
{
    let mut table = AgeTable::new(alloc, options);
    for (domain, age, number) in counted.as_slice() {
        table.add(alloc, domain, *age, *number)?;
    }
    table.text(alloc)
}
