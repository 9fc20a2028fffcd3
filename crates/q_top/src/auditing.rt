//! `audit`: a second opinion on every line of a trace.
ghost use Rattle.std.specs.Prelude.{◌≡◌, ◌≢◌, false, ℕ};
ghost use Rattle.q_conf.specs.Confs.{world_of};
ghost use Rattle.q_host.specs.View.{Told};
ghost use Rattle.q_replay.specs.Spools.{Serves};
ghost use Rattle.q_top.specs.Audits.{Audits, EndsAudit};
ghost use Rattle.q_top.specs.Causes.{HasHostCause, HasSourceCause};
ghost use Rattle.q_top.specs.Named.{IsNamed};
ghost use Rattle.q_top.specs.Statuses.{is_unreadable, trace_status};
ghost use Rattle.q_telling.specs.Telling.{OnlyTells};
ghost use Rattle.q_words.specs.declared.request.Request.TheVariants.{Audit};

use crate::status::{InputFile, Status, conf_status, telling_status};
use q_audit::{TraceError, audit_trace};
use q_conf::{Conf, read_conf};
use q_host::Host;
use q_model::Bound;
use q_stream::Source;
use q_telling::tell_text;
use std::alloc::Global;

/// How a command ends whose trace has no report.
fn trace_status(error: TraceError) -> Status
    ensures exact { result ≡ trace_status error }
    ensures no_usage { result ≢ Status.Usage }
    ensures no_door { result ≢ Status.Door }
    ensures no_rests { (n : ℕ) → result ≢ Status.Unfinished n }
{
    match error {
        TraceError::NoMemory => Status::NoMemory,
        TraceError::Source => Status::Source,
        TraceError::BadLine { line } => Status::BadInput {
            file: InputFile::Trace,
            line,
        },
        TraceError::TooLong => Status::Limit {
            bound: Bound::Input,
        },
    }
}

/// Audits the trace of the source by these files of conf, and tells the report.
fn audit_by<H: Host, S: Source>(alloc: Global, source: &mut S, host: &mut H, conf: Conf) -> Status
    ensures ends { Told H.tells H.view host.old host.new (λ u v. EndsAudit (world_of conf)
        (record { before = S.left source.old; after = S.left source.new }) u v result) }
    ensures only { Told H.tells H.view host.old host.new OnlyTells }
    ensures readable { is_unreadable result ≡ false }
    ensures named { IsNamed (λ r. r ≡ Audit) (S.left source.old) result }
    ensures host { HasHostCause (H.faults host.old) (H.faults host.new) result }
    ensures source { HasSourceCause (S.faults source.old) (S.faults source.new) result }
    ensures no_usage { result ≢ Status.Usage }
    ensures no_door { result ≢ Status.Door }
    ensures no_rests { (n : ℕ) → result ≢ Status.Unfinished n }
{
    let Conf { params, table } = conf;
    match audit_trace(alloc, &params, table, source) {
        Ok(text) => telling_status(tell_text(host, text.as_slice())),
        Err(error) => trace_status(error),
    }
}

/// Reads the files of conf, and audits the trace of the source.
pub(crate) fn audit_source<H: Host, S: Source>(
    alloc: Global,
    source: &mut S,
    host: &mut H,
) -> Status
    ensures audits { Told H.tells H.view host.old host.new (λ u v. Audits
        (record { before = S.left source.old; after = S.left source.new }) u v result) }
    ensures serves { Told H.tells H.view host.old host.new (Serves false) }
    ensures readable { is_unreadable result ≡ false }
    ensures named { IsNamed (λ r. r ≡ Audit) (S.left source.old) result }
    ensures host { HasHostCause (H.faults host.old) (H.faults host.new) result }
    ensures source { HasSourceCause (S.faults source.old) (S.faults source.new) result }
    ensures no_usage { result ≢ Status.Usage }
    ensures no_door { result ≢ Status.Door }
    ensures no_rests { (n : ℕ) → result ≢ Status.Unfinished n }
{
    match read_conf(alloc, host) {
        Ok(conf) => audit_by(alloc, source, host, conf),
        Err(error) => conf_status(error),
    }
}
