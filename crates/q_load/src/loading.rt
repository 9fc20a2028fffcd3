//! A load from its beginning to its summary.
ghost use Rattle.std.specs.Prelude.{◌≡◌, IfOk};
ghost use Rattle.q_books.specs.HostStands.{HostStands};
ghost use Rattle.q_engine.specs.Heard.{IsEventInForm};
ghost use Rattle.q_engine.specs.Stands.{EngineStands, IsReady};
ghost use Rattle.q_engine.specs.declared.error.EngineError.TheVariants as errors;
ghost use Rattle.q_load.specs.Lives.{Begins, HearsAll, HearsOne, IsFirst, Takes};
ghost use Rattle.q_load.specs.Loads.{IsSummary, load_world, summary_at};
ghost use Rattle.q_mem_host.specs.Left.{view_of};
ghost use Rattle.q_model.specs.Book.{empty_book};
ghost use Rattle.q_model.specs.Ledger.{Ledger};

use crate::generator::Generator;
use crate::mails::all_recipients;
use crate::remaining::count_left;
use crate::summary::Summary;
use crate::unfailing_host::UnfailingHost;
use q_engine::{Engine, EngineError, begin};
use q_model::{Event, Mode, Moment, NoMemory};
use q_settings::Params;
use q_transport::Table;
use std::alloc::Global;

/// The moment of the first event.
const FIRST_MOMENT: Moment = 1_000;

/// The engine's refusal, which is want of memory: no call of the host fails otherwise, its spool is in
/// order and can be read, and no event of a load is refused.
fn want_of_memory(error: EngineError) -> NoMemory
    requires { error ≡ errors.NoMemory }
{
    match error {
        EngineError::NoMemory => NoMemory,
        _ => unreachable!(),
    }
}

/// Begins a life on the host of a load, whose spool is empty.
fn begin_life(alloc: Global, host: &mut UnfailingHost) -> Result<Engine, NoMemory>
    requires { HostStands (view_of host.old) empty_book }
    ensures ready { IfOk result IsReady }
    ensures begins { IfOk result (λ engine. Begins engine (view_of host.old) (view_of host.new)) }
{
    let table = Table::empty(alloc);
    match begin(alloc, host, Params::defaults(), table, Mode::Deliver) {
        Ok(engine) => Ok(engine),
        Err(error) => Err(want_of_memory(error)),
    }
}

/// The life hears an event that it doesn't refuse.
fn hear(
    alloc: Global,
    engine: Engine,
    host: &mut UnfailingHost,
    event: Event,
) -> Result<Engine, NoMemory>
    requires ready { IsReady engine }
    requires form { IsEventInForm event }
    requires accepted { Takes engine (view_of host.old) event }
    ensures ready { IfOk result IsReady }
    ensures hears { IfOk result (λ next. HearsOne engine event next
        (view_of host.old) (view_of host.new)) }
{
    match engine.step(alloc, host, event) {
        Ok(next) => Ok(next),
        Err(error) => Err(want_of_memory(error)),
    }
}

/// The life hears the events of a load behind the first. They come to an end: each ends one of at most
/// 2^48 deliveries, or is one of the mails and moments.
fn hear_all(
    alloc: Global,
    engine: Engine,
    host: &mut UnfailingHost,
    mails: u32,
) -> Result<Engine, NoMemory>
    requires ready { IsReady engine }
    requires stands { IsFirst engine (view_of host.old) }
    ensures hears { IfOk result (λ next. HearsAll mails engine next
        (view_of host.old) (view_of host.new)) }
{
    let mut generator = Generator::new(mails);
    let mut engine = engine;
    loop {
        let Some(event) = generator.due(alloc, &engine, host)? else {
            return Ok(engine);
        };
        generator.note(&event);
        engine = hear(alloc, engine, host, event)?;
    }
}

/// Counts what the life did, and ends it.
fn conclude(
    alloc: Global,
    engine: Engine,
    host: &mut UnfailingHost,
    mails: u32,
) -> Result<Summary, NoMemory>
    ensures { IfOk result (λ summary. (l : Ledger)
        → EngineStands load_world engine (view_of host.old) l → summary ≡ summary_at mails l) }
{
    let summary = Summary {
        messages: mails,
        recipients: all_recipients(mails),
        starts: engine.last_number(),
        preempts: engine.preempts(),
        left: count_left(alloc, host)?,
    };
    match engine.finish(alloc, host) {
        Ok(()) => Ok(summary),
        Err(error) => Err(want_of_memory(error)),
    }
}

/// Runs a load on a host that stands for an empty spool.
fn run(alloc: Global, host: &mut UnfailingHost, mails: u32) -> Result<Summary, NoMemory>
    requires { HostStands (view_of host.old) empty_book }
    ensures { IfOk result (IsSummary mails) }
{
    let begun = begin_life(alloc, host)?;
    let first = Event::At {
        moment: FIRST_MOMENT,
    };
    let timed = hear(alloc, begun, host, first)?;
    let heard = hear_all(alloc, timed, host, mails)?;
    conclude(alloc, heard, host, mails)
}

/// Runs a load of so many mails on a host in memory of its own, with the default parameters and a table
/// without lines, and says what came of it.
///
/// `NoMemory` comes only where memory ran out. No call of that host fails otherwise, so the engine
/// answers no fault; an empty spool is refused for nothing; and no event of a load is refused: it is due
/// by the ledger, behind a first moment, and of fewer than 2^32 mails each has its serial.
pub fn load(alloc: Global, mails: u32) -> Result<Summary, NoMemory>
    // The summary is that of the run of the events that are due, one behind another.
    ensures { IfOk result (IsSummary mails) }
{
    let mut host = UnfailingHost::new(alloc);
    run(alloc, &mut host, mails)
}
