//! A driver of the engine: it takes an event list through lives on a host.
ghost use Rattle.std.specs.Prelude.{IfOk, IfSome};
ghost use Rattle.q_engine.specs.Stands.{IsReady};
ghost use Rattle.q_events.specs.Forms.{IsItemInForm};
ghost use Rattle.q_settings.specs.Ranges.{IsInRange};

use q_engine::{Engine, EngineError, begin};
use q_events::{EventError, Events, ListItem};
use q_model::{Mode, NoMemory};
use q_params::read_params;
use q_settings::Params;
use q_silent_host::SilentHost;
use q_stream::MemSource;
use q_transport::{Table, read_table};
use std::alloc::{AllocError, Global};

/// Why a list doesn't go to its end.
#[derive(Clone, Copy, Debug, PartialEq, Eq)]
pub(crate) enum Stop {
    NoMemory,
    /// The parameters or the table are at fault.
    Conf,
    /// The list is.
    List(EventError),
    /// The engine gave up.
    Refused(EngineError),
}

impl From<NoMemory> for Stop {
    fn from(_: NoMemory) -> Self {
        Stop::NoMemory
    }
}

impl From<AllocError> for Stop {
    fn from(_: AllocError) -> Self {
        Stop::NoMemory
    }
}

impl From<EventError> for Stop {
    fn from(error: EventError) -> Self {
        Stop::List(error)
    }
}

impl From<EngineError> for Stop {
    fn from(error: EngineError) -> Self {
        Stop::Refused(error)
    }
}

pub(crate) fn params_of(settings: &str) -> Result<Params, Stop>
    ensures { IfOk result IsInRange }
{
    match read_params(settings.as_bytes()) {
        Ok(params) => Ok(params),
        Err(_) => Err(Stop::Conf),
    }
}

pub(crate) fn table_of(alloc: Global, table: &str) -> Result<Table, Stop> {
    match read_table(alloc, table.as_bytes()) {
        Ok(table) => Ok(table),
        Err(_) => Err(Stop::Conf),
    }
}

/// The engine after an item, which is not the end.
#[tactic(auto, using(q_engine::proofs::EventForms::form))]
fn turn(
    alloc: Global,
    host: &mut SilentHost,
    params: Params,
    engine: Engine,
    item: ListItem,
) -> Result<Engine, Stop>
    requires range { IsInRange params }
    requires ready { IsReady engine }
    requires form { IsItemInForm item }
    ensures { IfOk result IsReady }
{
    match item {
        ListItem::Step { event, .. } => Ok(engine.step(alloc, host, event)?),
        ListItem::Restart => {
            let table = engine.release();
            Ok(begin(alloc, host, params, table, Mode::Deliver)?)
        }
        ListItem::End => Ok(engine),
    }
}

/// The engine after the items that the source gives.
fn turns(
    alloc: Global,
    host: &mut SilentHost,
    params: Params,
    engine: Engine,
    source: &mut MemSource,
) -> Result<Engine, Stop>
    requires range { IsInRange params }
    requires ready { IsReady engine }
    ensures { IfOk result IsReady }
{
    let mut events = Events::new(alloc)?;
    let mut engine = engine;
    for _ in 0..u64::MAX {
        let item = events.read_event(alloc, source)?;
        if let ListItem::End = item {
            return Ok(engine);
        }
        engine = turn(alloc, host, params, engine, item)?;
    }
    Err(Stop::NoMemory)
}

/// Begins a life on the host, and takes what the source gives through it and the next ones. The
/// last one goes on.
pub(crate) fn live(
    alloc: Global,
    host: &mut SilentHost,
    settings: &str,
    table: &str,
    source: &mut MemSource,
) -> Result<Engine, Stop>
    ensures { IfOk result IsReady }
{
    let params = params_of(settings)?;
    let table = table_of(alloc, table)?;
    let engine = begin(alloc, host, params, table, Mode::Deliver)?;
    turns(alloc, host, params, engine, source)
}

/// The reply that all recipients of the delivery were reached, as a list says it.
fn all_reached(alloc: Global, engine: &Engine, number: u64) -> Result<ListItem, Stop>
    ensures { IfOk result IsItemInForm }
{
    let mut line = format!(in alloc; "reply {number} up")?;
    if let Some(positions) = engine.positions(number) {
        for _ in positions {
            line.push_str(" ok")?;
        }
    }
    let mut source = MemSource::new(alloc, line.as_bytes(), 4096, &[])?;
    let mut events = Events::new(alloc)?;
    Ok(events.read_event(alloc, &mut source)?)
}

/// Delivers to all recipients, in the order of deliveries, until none is in flight.
pub(crate) fn deliver_all(
    alloc: Global,
    host: &mut SilentHost,
    settings: &str,
    engine: Engine,
) -> Result<(), Stop>
    requires { IsReady engine }
{
    let params = params_of(settings)?;
    let mut engine = engine;
    for _ in 0..u64::MAX {
        let Some(number) = engine.least_flight() else {
            engine.finish(alloc, host)?;
            return Ok(());
        };
        let item = all_reached(alloc, &engine, number)?;
        engine = turn(alloc, host, params, engine, item)?;
    }
    Err(Stop::NoMemory)
}
