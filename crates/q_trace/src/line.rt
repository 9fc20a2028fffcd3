//! A line that is being written.
ghost use Rattle.std.specs.Prelude.{◌≡◌, ◌++◌, decimal, flat_map, IfOk, map, OnOk};
ghost use Rattle.q_trace.specs.Wording.{spaced_site};
ghost use Rattle.q_model.specs.IdTexts.{id_text};
ghost use Rattle.q_model.specs.TextParts.{text_line};
ghost use Rattle.q_model.specs.Text.{coded, outcome_text, sender_text, spaced, transport_text};
ghost use Rattle.q_transport.specs.Routing.{table_of};

use q_model::{
    Address, Addresses, Bytes, Id, NoMemory, Outcome, Outcomes, Positions, Site, id_name,
};
use q_transport::Table;
use std::alloc::Global;
use std::marker::Model;

/// A line that grows by words, each behind a space. A contract sees it as its bytes.
#[derive(Drop)]
pub(crate) struct TraceLine {
    bytes: Vec<u8>,
}

impl Model for TraceLine {
    ghost use Rattle.std.specs.Prelude.{List, ℕ};

    ghost Value = { List ℕ };

    ghost view = { λ l. l.bytes.items };
}

impl TraceLine {
    pub(crate) fn new(alloc: Global, word: &[u8]) -> Result<TraceLine, NoMemory>
        ensures { IfOk result (λ l. l ≡ word.now) }
    {
        let bytes = Vec::from_slice(alloc, word)?;
        Ok(TraceLine { bytes })
    }

    pub(crate) fn word(&mut self, word: &[u8]) -> Result<(), NoMemory>
        ensures { OnOk result (self.new ≡ self.old ++ spaced word.now) }
    {
        self.bytes.push(b' ')?;
        self.bytes.extend_from_slice(word)?;
        Ok(())
    }

    pub(crate) fn number(&mut self, alloc: Global, number: u64) -> Result<(), NoMemory>
        ensures { OnOk result (self.new ≡ self.old ++ spaced (decimal number)) }
    {
        let digits = number.to_string(alloc)?;
        self.word(digits.as_bytes())
    }

    pub(crate) fn id(&mut self, id: &Id) -> Result<(), NoMemory>
        ensures { OnOk result (self.new ≡ self.old ++ spaced (id_text id.now)) }
    {
        self.word(id_name(*id).bytes())
    }

    /// An address, or `<>` for the null sender.
    pub(crate) fn sender(&mut self, sender: &Option<Address>) -> Result<(), NoMemory>
        ensures { OnOk result (self.new ≡ self.old ++ spaced (sender_text sender.now)) }
    {
        match sender {
            None => self.word(b"<>"),
            Some(address) => self.word(address.bytes()),
        }
    }

    pub(crate) fn addresses(&mut self, addresses: &Addresses) -> Result<(), NoMemory>
        ensures { OnOk result (self.new
            ≡ self.old ++ flat_map spaced (map (λ r. r.address) addresses.now)) }
    {
        for receiver in addresses.as_slice() {
            self.word(receiver.address.bytes())?;
        }
        Ok(())
    }

    /// The name of a transport; empty where the table has no transport of this number.
    pub(crate) fn transport(&mut self, table: &Table, number: u8) -> Result<(), NoMemory>
        ensures { OnOk result (self.new
            ≡ self.old ++ spaced (transport_text (table_of table.now) number)) }
    {
        if number < table.transports() {
            self.word(table.transport_name(number).bytes())
        } else {
            self.word(b"")
        }
    }

    pub(crate) fn site(&mut self, table: &Table, site: &Site) -> Result<(), NoMemory>
        ensures { OnOk result (self.new ≡ self.old ++ spaced_site (table_of table.now) site.now) }
    {
        self.transport(table, site.transport)?;
        self.word(site.hop.bytes())
    }

    pub(crate) fn positions(&mut self, alloc: Global, positions: &Positions) -> Result<(), NoMemory>
        ensures { OnOk result (self.new ≡ self.old ++ flat_map spaced (map decimal positions.now)) }
    {
        for position in positions.as_slice() {
            self.number(alloc, u64::from(*position))?;
        }
        Ok(())
    }

    /// A word, and behind a colon its code, where there is one.
    fn coded(&mut self, alloc: Global, word: &[u8], code: u16) -> Result<(), NoMemory>
        ensures { OnOk result (self.new ≡ self.old ++ spaced (coded word.now code)) }
    {
        self.word(word)?;
        if code != 0 {
            self.bytes.push(b':')?;
            let digits = code.to_string(alloc)?;
            self.bytes.extend_from_slice(digits.as_bytes())?;
        }
        Ok(())
    }

    fn outcome(&mut self, alloc: Global, outcome: Outcome) -> Result<(), NoMemory>
        ensures { OnOk result (self.new ≡ self.old ++ spaced (outcome_text outcome)) }
    {
        match outcome {
            Outcome::Ok => self.word(b"ok"),
            Outcome::Later(code) => self.coded(alloc, b"later", code),
            Outcome::Never(code) => self.coded(alloc, b"never", code),
        }
    }

    pub(crate) fn outcomes(&mut self, alloc: Global, outcomes: &Outcomes) -> Result<(), NoMemory>
        ensures { OnOk result (self.new
            ≡ self.old ++ flat_map spaced (map outcome_text outcomes.now)) }
    {
        for outcome in outcomes.as_slice() {
            self.outcome(alloc, *outcome)?;
        }
        Ok(())
    }

    /// The bytes of the line with its end.
    pub(crate) fn ended(self) -> Result<Bytes, NoMemory>
        ensures { IfOk result (λ bytes. bytes ≡ text_line self) }
    {
        let mut bytes = self.bytes;
        bytes.push(b'\n')?;
        Ok(Bytes::from_vec(bytes))
    }
}
