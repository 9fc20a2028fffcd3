//! The tallies of all jobs that were preempted, in the order of their first preemptions.
ghost use Rattle.std.specs.List.{list_any};
ghost use Rattle.std.specs.Prelude.{◌≡◌, ◌++◌, [], IfOk, map, OnOk};
ghost use Rattle.q_audit.specs.Tallied.{delay_of, is_of, job_with, with_opened};
ghost use Rattle.q_audit.specs.ReportTexts.{job_line};
ghost use Rattle.q_model.specs.TextParts.{text_line};
ghost use Rattle.q_transport.specs.Routing.{table_of};

use crate::line::ReportLine;
use q_model::{Entry, Id, NoMemory};
use q_tallies::Tally;
use q_transport::Table;
use std::alloc::Global;
use std::marker::Model;

/// A job that was preempted, with the number of its message's recipients.
#[derive(Debug, Drop)]
pub(crate) struct Job {
    pub(crate) tally: Tally,
    pub(crate) recipients: usize,
}

impl Model for Job {
    ghost use Rattle.q_audit.specs.Tallied.{Job as JobValue};

    ghost Value = { JobValue };

    ghost view = { λ j. record { tally = j.tally; recipients = j.recipients } };
}

impl Job {
    /// Whether it is the job of this message at the transport, while that goes on.
    fn is_of(&self, id: Id, transport: u8) -> bool
        ensures { result ≡ is_of id transport self.now }
    {
        !self.tally.is_over() && self.tally.id() == id && self.tally.transport() == transport
    }

    /// Counts an entry.
    fn count(&mut self, entry: &Entry) -> Result<(), NoMemory>
        ensures { OnOk result (self.new ≡ job_with entry.now self.old) }
    {
        self.tally.take(entry)
    }

    /// `job ID TRANSPORT R P`: the recipients of its message, and its preempting starts.
    fn line(&self, alloc: Global, table: &Table) -> Result<ReportLine, NoMemory>
        ensures { IfOk result (λ l. text_line l ≡ job_line (table_of table.now) (delay_of self.now)) }
    {
        let mut line = ReportLine::new(alloc, b"job")?;
        line.id(self.tally.id())?;
        line.transport(table, self.tally.transport())?;
        line.number(alloc, self.recipients as u64)?;
        line.number(alloc, self.tally.count())?;
        Ok(line)
    }

    /// Adds that line to a text.
    pub(crate) fn tell(
        &self,
        alloc: Global,
        table: &Table,
        text: &mut Vec<u8>,
    ) -> Result<(), NoMemory>
        ensures { OnOk result (text.new.items
            ≡ text.old.items ++ job_line (table_of table.now) (delay_of self.now)) }
    {
        self.line(alloc, table)?.end(text)
    }
}

#[derive(Debug, Drop)]
pub(crate) struct Tallies {
    jobs: Vec<Job>,
}

impl Model for Tallies {
    ghost use Rattle.std.specs.Prelude.{List};
    ghost use Rattle.q_audit.specs.Tallied.{Job as JobValue};

    ghost Value = { List JobValue };

    ghost view = { λ t. t.jobs.items };
}

impl Tallies {
    pub(crate) fn new(alloc: Global) -> Tallies
        ensures { result ≡ [] }
    {
        Tallies {
            jobs: Vec::new(alloc),
        }
    }

    /// Those that were preempted.
    pub(crate) fn jobs(&self) -> &[Job]
        ensures { result.now ≡ self.now }
    {
        &self.jobs
    }

    fn has_job(&self, id: Id, transport: u8) -> bool
        ensures { result ≡ list_any (is_of id transport) self.now }
    {
        self.jobs.iter().any(|job| job.is_of(id, transport))
    }

    /// Begins the tally of a job that is preempted for the first time.
    fn open(&mut self, alloc: Global, entry: &Entry, recipients: usize) -> Result<(), NoMemory>
        ensures { OnOk result (self.new ≡ with_opened entry.now recipients self.old) }
    {
        if let Entry::Preempt {
            parent,
            transport,
            ..
        } = entry
        {
            if !self.has_job(*parent, *transport) {
                let tally = Tally::new(alloc, *parent, *transport);
                self.jobs
                    .push(Job { tally, recipients })
                    .map_err(|_| NoMemory)?;
            }
        }
        Ok(())
    }

    /// Counts an entry.
    fn count(&mut self, entry: &Entry) -> Result<(), NoMemory>
        ensures { OnOk result (self.new ≡ map (job_with entry.now) self.old) }
    {
        for job in self.jobs.iter_mut() {
            job.count(entry)?;
        }
        Ok(())
    }

    /// Takes up the job that an entry is the first to preempt, whose message has so many recipients, and
    /// counts the entry.
    pub(crate) fn take(
        &mut self,
        alloc: Global,
        entry: &Entry,
        recipients: usize,
    ) -> Result<(), NoMemory>
        ensures jobs { OnOk result (self.new
            ≡ map (job_with entry.now) (with_opened entry.now recipients self.old)) }
    {
        self.open(alloc, entry, recipients)?;
        self.count(entry)?;
        Ok(())
    }
}
