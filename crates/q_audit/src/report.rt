//! The report of an audit.
ghost use Rattle.std.specs.Prelude.{◌≡◌, ◌++◌, [], codes, decimal, flat_map, IfOk, List, map, OnOk, ◌∷◌};
ghost use Rattle.q_audit.specs.ReportTexts.{broken_text, job_line, lawful_text};
ghost use Rattle.q_audit.specs.Reading.{Reads};
ghost use Rattle.q_audit.specs.Reports.{IsReport};
ghost use Rattle.q_audit.specs.Tallied.{delay_of};
ghost use Rattle.q_model.specs.Settings.{World};
ghost use Rattle.q_model.specs.declared.entry.Entry.{Entry as EntryValue};
ghost use Rattle.q_model.specs.Text.{joined};
ghost use Rattle.q_model.specs.TextParts.{text_line};
ghost use Rattle.q_transport.specs.Routing.{table_of};

use crate::audit::{Audit, Breach};
use crate::line::ReportLine;
use crate::tally::Job;
use q_model::{Bytes, NoMemory};
use q_transport::Table;
use std::alloc::Global;

/// Adds the line of a number of lawful entries.
fn tell_count(text: &mut Vec<u8>, alloc: Global, count: u64) -> Result<(), NoMemory>
    ensures { OnOk result (text.new.items
        ≡ text.old.items ++ text_line (joined (codes "lawful" ∷ decimal count ∷ []))) }
{
    let mut line = ReportLine::new(alloc, b"lawful")?;
    line.number(alloc, count)?;
    line.end(text)
}

/// Adds the lines of jobs.
fn tell_jobs(text: &mut Vec<u8>, alloc: Global, table: &Table, jobs: &[Job]) -> Result<(), NoMemory>
    ensures { OnOk result (text.new.items
        ≡ text.old.items ++ flat_map (λ j. job_line (table_of table.now) (delay_of j)) jobs.now) }
{
    for job in jobs {
        job.tell(alloc, table, text)?;
    }
    Ok(())
}

/// `lawful N`, and the jobs that were preempted.
fn lawful(alloc: Global, table: &Table, count: u64, jobs: &[Job]) -> Result<Vec<u8>, NoMemory>
    ensures { IfOk result (λ text. text.items
        ≡ lawful_text (table_of table.now) count (map delay_of jobs.now)) }
{
    let mut text = Vec::new(alloc);
    tell_count(&mut text, alloc, count)?;
    tell_jobs(&mut text, alloc, table, jobs)?;
    Ok(text)
}

/// `broken L RULE`.
fn broken(alloc: Global, breach: Breach) -> Result<Vec<u8>, NoMemory>
    ensures { IfOk result (λ text. text.items ≡ broken_text breach.line breach.rule) }
{
    let mut text = Vec::new(alloc);
    let mut line = ReportLine::new(alloc, b"broken")?;
    line.number(alloc, breach.line)?;
    line.number(alloc, u64::from(breach.rule))?;
    line.end(&mut text)?;
    Ok(text)
}

impl Audit {
    /// The report: `lawful N` and the jobs that were preempted, or `broken L RULE`.
    pub fn report(&self, alloc: Global) -> Result<Bytes, NoMemory>
        ensures { (w : World) (es : List EntryValue) → Reads w self.now es
            → IfOk result (IsReport w es) }
    {
        let text = match self.breach {
            None => lawful(alloc, self.table(), self.lines, self.tallies.jobs())?,
            Some(breach) => broken(alloc, breach)?,
        };
        Ok(Bytes::from_vec(text))
    }
}
