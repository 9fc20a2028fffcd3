//! Lines of a trace that are read by themselves, and written back.
use crate::bytes::bytes_of;
use crate::flaw::{Flaw, same};
use crate::stage::Stage;
use crate::step::Step;
use q_model::{Area, Name};
use q_trace::{EntryError, entry_text, read_entry};
use q_transport::{Table, read_table};
use std::alloc::Global;

/// What comes of a line that says no entry.
const NO_ENTRY: &[u8] = b"no entry\n";

/// What comes of a line: the line of the entry that it says, or that it is none.
fn read_back(alloc: Global, line: &[u8], table: &Table) -> Result<Vec<u8>, Flaw> {
    match read_entry(alloc, line, table) {
        Ok(entry) => Ok(Vec::from_slice(alloc, entry_text(alloc, &entry, table)?.as_slice())?),
        Err(EntryError::BadEntry) => Ok(Vec::from_slice(alloc, NO_ENTRY)?),
        Err(_) => Err(Flaw::NoMemory),
    }
}

impl Stage {
    /// The transport table that stands on the spool.
    fn table(&self) -> Result<Table, Flaw> {
        let Some(name) = Name::new(b"transport") else {
            return Err(Flaw::NoStep("no table"));
        };
        let bytes = self.host.file(Area::Conf, name).unwrap_or(&[]);
        match read_table(self.alloc, bytes) {
            Ok(table) => Ok(table),
            Err(_) => Err(Flaw::NoStep("a table at fault")),
        }
    }

    /// Each of the lines is read as an entry and written back, or else is none.
    pub(crate) fn judge_entries(&self, step: &Step<'_>, are_entries: bool) -> Result<(), Flaw> {
        let table = self.table()?;
        for line in &step.below {
            let text = bytes_of(self.alloc, &[*line], b"\n")?;
            let came = read_back(self.alloc, text.as_slice(), &table)?;
            if are_entries {
                same(self.alloc, text.as_slice(), came.as_slice())?;
            } else {
                same(self.alloc, NO_ENTRY, came.as_slice())?;
            }
        }
        Ok(())
    }

    /// The text is no line of a trace.
    pub(crate) fn judge_no_entry(&self, step: &Step<'_>) -> Result<(), Flaw> {
        let text = bytes_of(self.alloc, step.below.as_slice(), b"\n")?;
        let came = read_back(self.alloc, text.as_slice(), &self.table()?)?;
        same(self.alloc, NO_ENTRY, came.as_slice())
    }
}
