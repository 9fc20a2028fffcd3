//! The file of a transport table.
ghost use Rattle.q_transport.specs.TableFile.{table_of_file};
ghost use Rattle.q_transport.specs.Readings.{AnswersTable};

use crate::error::TableError;
use crate::table::Table;
use q_text::first_line;
use std::alloc::Global;

/// The table that a file says (transport(5)). A file has lines `pattern transport:nexthop` with
/// blanks (spaces and tabs) between the two parts; lines that are blank or begin with `#` are
/// passed over. Patterns are read in lower case, next hops as they are; an empty one is the
/// domain of the recipient.
///
/// An error names the first line at fault: it isn't of this form, or has the pattern of an
/// earlier line, or is a 10,001st entry or names a 21st transport, in this order.
pub fn read_table(alloc: Global, bytes: &[u8]) -> Result<Table, TableError>
    ensures { AnswersTable result (table_of_file bytes.now) }
{
    let mut table = Table::empty(alloc);
    let mut number = 0;
    let mut rest = bytes;
    while !rest.is_empty() {
        let (line, others) = first_line(rest);
        number += 1;
        table.read_line(alloc, number, line)?;
        rest = others;
    }
    Ok(table)
}
