//! A core at the beginning of a life. All room of its parts is made here.
ghost use Rattle.std.specs.Prelude.{◌≡◌, ◌≤◌, ◌<◌, ◌^◌, IfOk, true};
ghost use Rattle.q_core.specs.Agrees.{AgreesIfConsistent, AgreesIfOrderly, ForFirst};
ghost use Rattle.q_core.specs.Beginning.{AreEmpty, AreNew, AreUnread, first_state};
ghost use Rattle.q_core.specs.Changes.{is_looked_at};
ghost use Rattle.q_core.specs.Deciding.{is_answered};
ghost use Rattle.q_core.specs.Rooms.{most_flights};
ghost use Rattle.q_settings.specs.Ranges.{IsInRange};

use crate::clock::Clock;
use crate::state::{Core, Question, Seen};
use crate::touched::Touched;
use q_dest::Sites;
use q_flights::Flights;
use q_held::Rows;
use q_model::{Mode, NoMemory, Site, Unsettled};
use q_open_rows::OpenRows;
use q_pool::Pool;
use q_positions::{Lists, RowList};
use q_queue::Queue;
use q_schedule::Schedule;
use q_settings::Params;
use std::alloc::Global;

/// The sites, the messages, and their schedule.
type Registers = (Sites, Pool, Schedule);

/// The rows that wait, the deliveries in flight, the outcomes that are to be settled, and the row
/// that was put off last.
type Rooms = (Rows, Flights, Queue<Unsettled>, Lists);

/// The rows of a load, the places of those that are begun, and the sites that are named.
type Loads = (RowList, OpenRows, Vec<Site>);

/// Registers with nothing in them.
fn registers(alloc: Global, params: &Params, transports: u8) -> Result<Registers, NoMemory>
    requires { IsInRange params.now }
    ensures { IfOk result (AreNew params.now transports) }
{
    let messages = params.qmgr_message_active_limit;
    let room = params.qmgr_message_recipient_limit;
    let most_sites = 2 * room + most_flights(params, transports);
    let sites = Sites::new(alloc, most_sites)?;
    let admitted = Pool::new(
        alloc,
        messages,
        params.mark_sync_limit,
        params.qmgr_message_recipient_minimum,
    )?;
    let suspended = most_suspended(params, most_sites);
    let schedule = Schedule::new(alloc, transports, messages, room, suspended)?;
    Ok((sites, admitted, schedule))
}

/// How many sites may be suspended: all that can be known, where there is a delay between deliveries,
/// and else next to none, since none rests.
fn most_suspended(params: &Params, sites: u32) -> u32
    requires { 1 ≤ sites }
    ensures some { 1 ≤ result }
    ensures few { result ≤ sites }
{
    if params.default_destination_rate_delay == 0 {
        1
    } else {
        sites
    }
}

/// How many deliveries can be in flight: as many as there are processes of all transports.
fn most_flights(params: &Params, transports: u8) -> u32
    requires { IsInRange params.now }
    ensures result { result ≡ most_flights params.now transports }
    ensures some { 1 ≤ result }
    ensures few { result ≤ 255000 }
{
    (u32::from(transports) * params.default_process_limit).max(1)
}

/// Room for as many rows and outcomes as recipients may be in memory, since each of these has one,
/// for so many deliveries, and for as many positions in each as a delivery may have.
fn rooms(alloc: Global, params: &Params, deliveries: u32) -> Result<Rooms, NoMemory>
    requires range { IsInRange params.now }
    requires some { 1 ≤ deliveries }
    requires few { deliveries < 2 ^ 30 }
    ensures { IfOk result (AreEmpty params.now deliveries) }
{
    let room = params.qmgr_message_recipient_limit;
    let most = params.default_destination_recipient_limit;
    let waiting = Rows::new(alloc, room, most)?;
    let flights = Flights::new(alloc, deliveries, most)?;
    let unsettled = Queue::new(alloc, room)?;
    let skipped = Lists::new(alloc, 1, most)?;
    Ok((waiting, flights, unsettled, skipped))
}

/// Room for as many rows and sites of a load as recipients may be in memory.
fn loads(alloc: Global, params: &Params) -> Result<Loads, NoMemory>
    requires { IsInRange params.now }
    ensures { IfOk result (AreUnread params.now) }
{
    let room = params.qmgr_message_recipient_limit;
    let rows = RowList::new(alloc, room, params.default_destination_recipient_limit)?;
    let open_rows = OpenRows::new(alloc, room)?;
    let named = Vec::with_capacity(alloc, room as usize)?;
    Ok((rows, open_rows, named))
}

/// A core in which nothing happened yet.
fn over(
    params: Params,
    transports: u8,
    mode: Mode,
    registers: Registers,
    rooms: Rooms,
    loads: Loads,
) -> Core
    requires registers { AreNew params transports registers }
    requires rooms { AreEmpty params (most_flights params transports) rooms }
    requires loads { AreUnread params loads }
    ensures { result ≡ first_state params transports mode }
{
    let (sites, admitted, schedule) = registers;
    let (waiting, flights, unsettled, skipped) = rooms;
    let (rows, open_rows, named) = loads;
    Core {
        params,
        transports,
        mode,
        clock: Clock::new(0),
        timed: false,
        next_run: 0,
        scan: None,
        asked: None,
        ignores: false,
        deferred_follows: false,
        admitted,
        waiting,
        flights,
        in_memory: 0,
        unsettled,
        schedule,
        sites,
        synced: None,
        starts: 0,
        active: Seen::Unknown,
        incoming: Seen::Unknown,
        deferred: Seen::Unknown,
        question: Question::Nothing,
        named,
        skips: 0,
        skipped,
        touched_message: Touched::Nothing,
        rows,
        open_rows,
    }
}

impl Core {
    /// A core at the beginning of a life, for a table of so many transports. It agrees with the
    /// ledger of that life on every book that is fit to begin with, and so on every orderly one.
    pub fn new(alloc: Global, params: Params, transports: u8, mode: Mode) -> Result<Core, NoMemory>
        requires { IsInRange params }
        ensures consistent { IfOk result (λ core. ForFirst params transports mode
            (λ w book l. AgreesIfConsistent w core l)) }
        ensures orderly { IfOk result (λ core. ForFirst params transports mode
            (λ w book l. AgreesIfOrderly w core book l)) }
        ensures answered { IfOk result (λ core. is_answered core.question ≡ true) }
        ensures looked { IfOk result (λ core. is_looked_at core ≡ true) }
    {
        let deliveries = most_flights(&params, transports);
        let rooms = rooms(alloc, &params, deliveries)?;
        let loads = loads(alloc, &params)?;
        let registers = registers(alloc, &params, transports)?;
        Ok(over(params, transports, mode, registers, rooms, loads))
    }
}
