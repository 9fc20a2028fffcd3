//! The audit of a trace that a source gives.
//!
//! Lines are read to the end of the source, and a last one without its LF is passed over: that is what a
//! crash may leave of a line. Behind an error it is an error to ask for the report.
ghost use Rattle.std.specs.Prelude.{◌≡◌, ◌<◌, ◌≤◌, ◌^◌, ◌+◌, ◌-◌, [], Err, IfOk, length, List, min, Ok, OnOk, Option, true, ℕ};
ghost use Rattle.q_audit.specs.Reading.{Reads, ReadsLine, table_in};
ghost use Rattle.q_audit.specs.TraceEnds.{HasAll, HasRead, IsRefused, ReadsOn, ReportsTrace};
ghost use Rattle.q_audit.specs.declared.trace.TraceError.{TraceError as TraceErrorValue};
ghost use Rattle.q_audit.specs.declared.trace.TraceError.TheVariants.{BadLine, Source as SourceError, TooLong};
ghost use Rattle.q_ledger.specs.Worlds.{world_of};
ghost use Rattle.q_model.specs.FaultCounts.{Rose};
ghost use Rattle.q_model.specs.Settings.{World};
ghost use Rattle.q_model.specs.TextParts.{text_line};
ghost use Rattle.q_model.specs.declared.entry.Entry.{Entry as EntryValue};
ghost use Rattle.q_trace.specs.Bounds.{IsNoLine};

use crate::audit::Audit;
use crate::error::AuditError;
use q_lines::{LineError, LineReader, NextLine};
use q_model::{Bytes, NoMemory};
use q_settings::Params;
use q_stream::Source;
use q_transport::Table;
use std::alloc::Global;
use thiserror::Error;

/// Why a trace has no report.
#[derive(Clone, Copy, Debug, PartialEq, Eq, Error)]
pub enum TraceError {
    #[error("no memory")]
    NoMemory,
    /// The source failed.
    #[error("input fault")]
    Source,
    /// The line is no line of a trace, or has more than 16,777,216 bytes. Lines count from 1.
    #[error("bad input: trace line {line}")]
    BadLine { line: u64 },
    /// The trace has more than 2^40 bytes.
    #[error("limit input")]
    TooLong,
}

impl From<NoMemory> for TraceError {
    ghost use Rattle.std.specs.Prelude.{◌≡◌};
    ghost use Rattle.q_audit.specs.declared.trace.TraceError.TheVariants.{NoMemory};

    ghost from_gives = { λ _ e. e ≡ NoMemory };

    fn from(_: NoMemory) -> Self {
        TraceError::NoMemory
    }
}

impl From<LineError> for TraceError {
    ghost use Rattle.std.specs.Prelude.{◌≡◌};
    ghost use Rattle.q_audit.specs.Errors.{trace_error};

    ghost from_gives = { λ error e. e ≡ trace_error error };

    fn from(error: LineError) -> Self {
        match error {
            LineError::NoMemory => TraceError::NoMemory,
            LineError::Source => TraceError::Source,
        }
    }
}

impl Audit {
    /// Takes over a line that has lost its LF.
    fn take_line(&mut self, alloc: Global, line: Vec<u8>) -> Result<(), TraceError>
        ensures given { self.new.recount.given ≡ self.old.recount.given }
        ensures reads { (w : World) (es : List EntryValue) → Reads w self.old es
            → length es < 2 ^ 60 → OnOk result (ReadsLine w self.new es (text_line line.items)) }
        ensures bad { (number : ℕ) → result ≡ Err (BadLine number)
            → (number ≡ min (self.old.lines + 1) (2 ^ 64 - 1))
            × IsNoLine (table_in self.old) (text_line line.items) }
        ensures no_source { result ≡ Err SourceError → ⊥ }
        ensures no_limit { result ≡ Err TooLong → ⊥ }
    {
        let mut text = line;
        let Ok(()) = text.push(b'\n') else {
            return Err(TraceError::NoMemory);
        };
        match self.line(alloc, &text) {
            Ok(()) => Ok(()),
            Err(AuditError::NoMemory) => Err(TraceError::NoMemory),
            Err(AuditError::BadEntry) => Err(TraceError::BadLine {
                line: self.lines.saturating_add(1),
            }),
        }
    }

    /// Reads the next line of the source; false where there is no whole line more.
    fn next_line<S: Source>(
        &mut self,
        alloc: Global,
        reader: &mut LineReader,
        source: &mut S,
    ) -> Result<bool, TraceError>
        ensures given { self.new.recount.given ≡ self.old.recount.given }
        ensures reads { (w : World) (start : Option (List ℕ))
            → HasRead w start self.old reader.old (S.left source.old)
            → ReadsOn w start result self.new reader.new (S.left source.new) }
        ensures spends { result ≡ Ok true → reader.new.budget < reader.old.budget }
        ensures cause { result ≡ Err SourceError → Rose (S.faults source.old) (S.faults source.new) }
        ensures later { S.faults source.old ≤ S.faults source.new }
        ensures faultless { IfOk result (λ _. S.faults source.new ≡ S.faults source.old) }
    {
        match reader.read_line(alloc, source)? {
            NextLine::Line(line) => {
                self.take_line(alloc, line)?;
                Ok(true)
            }
            NextLine::Unended(_) => Ok(false),
            NextLine::TooLong => Err(TraceError::BadLine {
                line: self.lines.saturating_add(1),
            }),
            NextLine::PastLimit => Err(TraceError::TooLong),
            NextLine::End => Ok(false),
        }
    }

    /// Reads the source to its end.
    fn read_all<S: Source>(&mut self, alloc: Global, source: &mut S) -> Result<(), TraceError>
        ensures all { (w : World) → Reads w self.old []
            → OnOk result (HasAll w (S.left source.old) self.new (S.left source.new)) }
        ensures refused { (w : World) (error : TraceErrorValue) → Reads w self.old []
            → result ≡ Err error → IsRefused w (S.left source.old) error }
        ensures cause { result ≡ Err SourceError → Rose (S.faults source.old) (S.faults source.new) }
        ensures later { S.faults source.old ≤ S.faults source.new }
        ensures faultless { IfOk result (λ _. S.faults source.new ≡ S.faults source.old) }
    {
        let mut reader = LineReader::new();
        loop {
            if !self.next_line(alloc, &mut reader, source)? {
                return Ok(());
            }
        }
    }
}

/// Audits the trace that the source gives, to its end.
pub fn audit_trace<S: Source>(
    alloc: Global,
    params: &Params,
    table: Table,
    source: &mut S,
) -> Result<Bytes, TraceError>
    // The text is the report of the entries of which the bytes of the source are the trace.
    ensures reports { IfOk result (λ text. ReportsTrace
        (world_of (record { settings = params.now; contents = table }))
        (S.left source.old) (S.left source.new) text) }
    // Where the bytes are no trace, their first line that isn't one is named.
    ensures refused { (error : TraceErrorValue) → result ≡ Err error
        → IsRefused (world_of (record { settings = params.now; contents = table }))
        (S.left source.old) error }
    ensures cause { result ≡ Err SourceError → Rose (S.faults source.old) (S.faults source.new) }
    ensures later { S.faults source.old ≤ S.faults source.new }
    ensures faultless { IfOk result (λ _. S.faults source.new ≡ S.faults source.old) }
{
    let mut audit = Audit::new(alloc, params, table);
    audit.read_all(alloc, source)?;
    let text = audit.report(alloc)?;
    Ok(text)
}
