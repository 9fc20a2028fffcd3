//! `hold`, `release`, `requeue`, `expire` and `flush`: queue tools.
ghost use Rattle.std.specs.Prelude.{◌≡◌, ◌≢◌, ◌≤◌, false, IsTrue, List, Option, true, ℕ};
ghost use Rattle.q_host.specs.View.{Told};
ghost use Rattle.q_replay.specs.ReplayEnds.{IsFitSpool};
ghost use Rattle.q_replay.specs.Spools.{Serves};
ghost use Rattle.q_stream.specs.Clocks.{last_moment};
ghost use Rattle.q_tools.specs.Tasks.{IsTask};
ghost use Rattle.q_top.specs.Causes.{HasHostCause, HasSourceCause};
ghost use Rattle.q_top.specs.Courses.{Moments, Texts};
ghost use Rattle.q_top.specs.Lives.{DoesWork, WorksAt, WorksNow, WorksThrough};
ghost use Rattle.q_top.specs.Named.{IsNamed, MayLackFor};
ghost use Rattle.q_top.specs.Statuses.{ids_status, is_unreadable};
ghost use Rattle.q_top.specs.Tools.{is_listed, work_of};
ghost use Rattle.q_words.specs.declared.request.Request.TheVariants.{Tool};
ghost use Rattle.q_words.specs.declared.tool.ToolRequest.{ToolRequest};

use crate::status::{InputFile, Status, conf_status, tool_status};
use crate::work::{Work, work_of};
use q_conf::read_conf;
use q_host::Host;
use q_input::{IdsError, read_ids};
use q_model::{Bound, Moment};
use q_stream::{Clock, Source};
use q_tools::{Act, Task, carry};
use q_words::ToolRequest;
use std::alloc::Global;

/// How a command ends whose input is no list of ids.
fn ids_status(error: IdsError) -> Status
    ensures exact { result ≡ ids_status error }
    ensures no_usage { result ≢ Status.Usage }
    ensures no_door { result ≢ Status.Door }
    ensures no_rests { (n : ℕ) → result ≢ Status.Unfinished n }
{
    match error {
        IdsError::BadLine { line } => Status::BadInput {
            file: InputFile::Ids,
            line,
        },
        IdsError::TooLong => Status::Limit {
            bound: Bound::Content,
        },
        IdsError::Source => Status::Source,
        IdsError::NoMemory => Status::NoMemory,
    }
}

/// Reads the files of conf, and does the task at a moment.
fn work_at<H: Host>(alloc: Global, host: &mut H, moment: Moment, task: &Task) -> Status
    requires moment { moment ≤ last_moment }
    requires task { IsTask task.now }
    requires spool { IsTrue H.tells → IsFitSpool (H.view host.old) }
    ensures works { Told H.tells H.view host.old host.new (λ u v.
        WorksAt moment task.now u v result) }
    ensures serves { Told H.tells H.view host.old host.new (Serves true) }
    ensures readable { IsTrue H.tells → is_unreadable result ≡ false }
    ensures named { (tool : ToolRequest) → (text : Option (List ℕ))
        → MayLackFor tool task.now → IsNamed (λ r. r ≡ Tool tool) text result }
    ensures host { HasHostCause (H.faults host.old) (H.faults host.new) result }
    ensures no_source { result ≢ Status.Source }
    ensures no_usage { result ≢ Status.Usage }
    ensures no_door { result ≢ Status.Door }
    ensures no_rests { (n : ℕ) → result ≢ Status.Unfinished n }
{
    match read_conf(alloc, host) {
        Ok(conf) => tool_status(carry(alloc, host, conf.params, conf.table, moment, task)),
        Err(error) => conf_status(error),
    }
}

/// Does the task at the clock's moment.
fn work_now<H: Host, C: Clock>(alloc: Global, host: &mut H, clock: &mut C, task: &Task) -> Status
    requires task { IsTask task.now }
    requires spool { IsTrue H.tells → IsFitSpool (H.view host.old) }
    ensures works { Told H.tells H.view host.old host.new (λ u v. WorksNow task.now
        (record { before = C.given clock.old; after = C.given clock.new }) u v result) }
    ensures serves { Told H.tells H.view host.old host.new (Serves true) }
    ensures readable { IsTrue H.tells → is_unreadable result ≡ false }
    ensures named { (tool : ToolRequest) → (text : Option (List ℕ))
        → MayLackFor tool task.now → IsNamed (λ r. r ≡ Tool tool) text result }
    ensures host { HasHostCause (H.faults host.old) (H.faults host.new) result }
    ensures no_source { result ≢ Status.Source }
    ensures no_usage { result ≢ Status.Usage }
    ensures no_door { result ≢ Status.Door }
    ensures no_rests { (n : ℕ) → result ≢ Status.Unfinished n }
{
    let moment = clock.now();
    work_at(alloc, host, moment, task)
}

/// Reads ids from the source, and does the act with the message of each at the clock's moment.
fn work_through<H: Host, S: Source, C: Clock>(
    alloc: Global,
    source: &mut S,
    host: &mut H,
    clock: &mut C,
    act: Act,
) -> Status
    requires spool { IsTrue H.tells → IsFitSpool (H.view host.old) }
    ensures works { Told H.tells H.view host.old host.new (λ u v. WorksThrough act
        (record { before = S.left source.old; after = S.left source.new })
        (record { before = C.given clock.old; after = C.given clock.new }) u v result) }
    ensures serves { Told H.tells H.view host.old host.new (Serves true) }
    ensures readable { IsTrue H.tells → is_unreadable result ≡ false }
    ensures named { (tool : ToolRequest) → is_listed (work_of tool) ≡ true
        → IsNamed (λ r. r ≡ Tool tool) (S.left source.old) result }
    ensures host { HasHostCause (H.faults host.old) (H.faults host.new) result }
    ensures source { HasSourceCause (S.faults source.old) (S.faults source.new) result }
    ensures no_usage { result ≢ Status.Usage }
    ensures no_door { result ≢ Status.Door }
    ensures no_rests { (n : ℕ) → result ≢ Status.Unfinished n }
{
    match read_ids(alloc, source) {
        Ok(ids) => work_now(alloc, host, clock, &Task::Each { act, ids }),
        Err(error) => ids_status(error),
    }
}

/// Does what a queue tool is asked to do, at the clock's moment.
pub(crate) fn use_tool<H: Host, S: Source, C: Clock>(
    alloc: Global,
    source: &mut S,
    host: &mut H,
    clock: &mut C,
    tool: ToolRequest,
) -> Status
    requires spool { IsTrue H.tells → IsFitSpool (H.view host.old) }
    ensures works { Told H.tells H.view host.old host.new (λ u v. DoesWork (work_of tool)
        (record { before = S.left source.old; after = S.left source.new })
        (record { before = C.given clock.old; after = C.given clock.new }) u v result) }
    ensures serves { Told H.tells H.view host.old host.new (Serves true) }
    ensures readable { IsTrue H.tells → is_unreadable result ≡ false }
    ensures named { IsNamed (λ r. r ≡ Tool tool) (S.left source.old) result }
    ensures host { HasHostCause (H.faults host.old) (H.faults host.new) result }
    ensures source { HasSourceCause (S.faults source.old) (S.faults source.new) result }
    ensures source_stays { is_listed (work_of tool) ≡ false → source.new ≡ source.old }
    ensures no_usage { result ≢ Status.Usage }
    ensures no_door { result ≢ Status.Door }
    ensures no_rests { (n : ℕ) → result ≢ Status.Unfinished n }
{
    match work_of(tool) {
        Work::Ready(task) => work_now(alloc, host, clock, &task),
        Work::Listed(act) => work_through(alloc, source, host, clock, act),
    }
}
