//! The audit of a trace, line by line.
//!
//! Lines are read by their form alone behind the first broken one. Where memory runs out an audit has lost
//! what it counted, and it is an error to go on with it.
ghost use Rattle.std.specs.Prelude.{◌≡◌, ◌++◌, ◌<◌, ◌^◌, [], IsErrOf, length, List, None, OnOk, Ok, ◌∷◌};
ghost use Rattle.q_audit.specs.Reading.{Judges, Reads, ReadsLine, table_in};
ghost use Rattle.q_audit.specs.ReportLaws.{CountsRecipients};
ghost use Rattle.q_fronts.specs.Fronts.{IsLedgerAfter};
ghost use Rattle.q_ledger.specs.Holding.{Holds};
ghost use Rattle.q_model.specs.Ledger.{Ledger};
ghost use Rattle.q_audit.specs.declared.error.AuditError.TheVariants.{BadEntry};
ghost use Rattle.q_ledger.specs.Rows.{HasTime};
ghost use Rattle.q_ledger.specs.Worlds.{world_of};
ghost use Rattle.q_model.specs.Settings.{World};
ghost use Rattle.q_model.specs.declared.entry.Entry.{Entry as EntryValue};
ghost use Rattle.q_trace.specs.Bounds.{IsLineOf, IsNoLine};

use crate::error::AuditError;
use crate::tally::Tallies;
use q_ledger::{Judged, Recount};
use q_model::{Entry, NoMemory};
use q_settings::Params;
use q_trace::read_entry;
use q_transport::Table;
use std::alloc::Global;
use std::marker::Model;

/// The first broken line, and the rule that it breaks.
#[derive(Clone, Copy, Debug)]
pub(crate) struct Breach {
    pub(crate) line: u64,
    pub(crate) rule: u8,
}

/// What is known of the lines so far.
#[derive(Drop)]
pub struct Audit {
    recount: Recount,
    pub(crate) tallies: Tallies,
    pub(crate) lines: u64,
    pub(crate) breach: Option<Breach>,
}

impl Model for Audit {
    ghost use Rattle.q_audit.specs.Reading.{AuditState};

    ghost Value = { AuditState };

    ghost view = { λ a. record {
      recount = a.recount;
      jobs = a.tallies;
      lines = a.lines;
      breach = a.breach;
    } };
}

impl Audit {
    /// Before the first line.
    pub fn new(alloc: Global, params: &Params, table: Table) -> Audit
        ensures given { result.recount.given
            ≡ record { settings = params.now; contents = table } }
        ensures reads { Reads (world_of result.recount.given) result [] }
    {
        Audit {
            recount: Recount::new(alloc, params, table),
            tallies: Tallies::new(alloc),
            lines: 0,
            breach: None,
        }
    }

    pub(crate) fn table(&self) -> &Table
        ensures { result.now ≡ self.now.recount.given.contents }
    {
        self.recount.table()
    }

    /// The recipients of the message whose job the entry puts another in front of; else any number.
    fn recipients(&self, entry: &Entry) -> usize
        ensures { (w : World) (es : List EntryValue) (l : Ledger) → Holds w self.now.recount es
            → IsLedgerAfter w es l → CountsRecipients l entry.now result }
    {
        match entry {
            Entry::Preempt { parent, .. } => self.recount.recipients(*parent),
            _ => 0,
        }
    }

    /// Judges an entry, while none was broken.
    fn judge(&mut self, alloc: Global, entry: &Entry) -> Result<(), NoMemory>
        requires { HasTime entry.now }
        ensures given { self.new.recount.given ≡ self.old.recount.given }
        ensures judges { (w : World) (es : List EntryValue) → Reads w self.old es
            → self.old.breach ≡ None → length es < 2 ^ 60
            → OnOk result (Judges w self.new es entry.now) }
    {
        let recipients = self.recipients(entry);
        match self.recount.step(alloc, entry)? {
            Judged::Lawful => {
                self.tallies.take(alloc, entry, recipients)?;
                Ok(())
            }
            Judged::Broken { rule } => {
                self.breach = Some(Breach {
                    line: self.lines.saturating_add(1),
                    rule,
                });
                Ok(())
            }
        }
    }

    /// Takes over an entry.
    fn entry(&mut self, alloc: Global, entry: &Entry) -> Result<(), NoMemory>
        requires { HasTime entry.now }
        ensures given { self.new.recount.given ≡ self.old.recount.given }
        ensures reads { (w : World) (es : List EntryValue) → Reads w self.old es
            → length es < 2 ^ 60 → OnOk result (Reads w self.new (es ++ entry.now ∷ [])) }
    {
        if self.breach.is_none() {
            self.judge(alloc, entry)?;
        }
        self.lines = self.lines.saturating_add(1);
        Ok(())
    }

    /// Judges the next line, which ends with its LF. After a broken one lines are only read for their
    /// form.
    pub fn line(&mut self, alloc: Global, line: &[u8]) -> Result<(), AuditError>
        ensures bad { IsErrOf result BadEntry → IsNoLine (table_in self.old) line.now }
        ensures stays { IsErrOf result BadEntry → self.new ≡ self.old }
        ensures given { self.new.recount.given ≡ self.old.recount.given }
        ensures reads { (w : World) (es : List EntryValue) → Reads w self.old es
            → length es < 2 ^ 60 → OnOk result (ReadsLine w self.new es line.now) }
    {
        let entry = read_entry(alloc, line, self.recount.table())?;
        self.entry(alloc, &entry)?;
        Ok(())
    }
}
