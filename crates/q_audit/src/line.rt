//! A line of a report that is being written.
ghost use Rattle.std.specs.Prelude.{◌≡◌, ◌++◌, decimal, IfOk, OnOk};
ghost use Rattle.q_model.specs.IdTexts.{id_text};
ghost use Rattle.q_model.specs.Text.{spaced, transport_text};
ghost use Rattle.q_model.specs.TextParts.{text_line};
ghost use Rattle.q_transport.specs.Routing.{table_of};

use q_model::{Id, NoMemory, id_name};
use q_transport::Table;
use std::alloc::Global;
use std::marker::Model;

/// A line that grows by words, each behind a space. A contract sees it as its bytes.
#[derive(Drop)]
pub(crate) struct ReportLine {
    bytes: Vec<u8>,
}

impl Model for ReportLine {
    ghost use Rattle.std.specs.Prelude.{List, ℕ};

    ghost Value = { List ℕ };

    ghost view = { λ l. l.bytes.items };
}

impl ReportLine {
    pub(crate) fn new(alloc: Global, word: &[u8]) -> Result<ReportLine, NoMemory>
        ensures { IfOk result (λ l. l ≡ word.now) }
    {
        let bytes = Vec::from_slice(alloc, word)?;
        Ok(ReportLine { bytes })
    }

    pub(crate) fn word(&mut self, word: &[u8]) -> Result<(), NoMemory>
        ensures { OnOk result (self.new ≡ self.old ++ spaced word.now) }
    {
        self.bytes.push(b' ')?;
        self.bytes.extend_from_slice(word)?;
        Ok(())
    }

    pub(crate) fn number(&mut self, alloc: Global, number: u64) -> Result<(), NoMemory>
        ensures { OnOk result (self.new ≡ self.old ++ spaced (decimal number)) }
    {
        let digits = number.to_string(alloc)?;
        self.word(digits.as_bytes())
    }

    pub(crate) fn id(&mut self, id: Id) -> Result<(), NoMemory>
        ensures { OnOk result (self.new ≡ self.old ++ spaced (id_text id)) }
    {
        self.word(id_name(id).bytes())
    }

    /// The name of a transport; empty where the table has no transport of this number.
    pub(crate) fn transport(&mut self, table: &Table, number: u8) -> Result<(), NoMemory>
        ensures { OnOk result (self.new
            ≡ self.old ++ spaced (transport_text (table_of table.now) number)) }
    {
        if number < table.transports() {
            self.word(table.transport_name(number).bytes())
        } else {
            self.word(b"")
        }
    }

    /// Adds the line with its end to a text.
    pub(crate) fn end(&self, text: &mut Vec<u8>) -> Result<(), NoMemory>
        ensures { OnOk result (text.new.items ≡ text.old.items ++ text_line self.now) }
    {
        text.extend_from_slice(self.bytes.as_slice())?;
        text.push(b'\n')?;
        Ok(())
    }
}
