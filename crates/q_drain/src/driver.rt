//! The sweeps of a drain, from the first to the last.
ghost use Rattle.std.specs.List.{list_all};
ghost use Rattle.std.specs.Prelude.{◌≡◌, ◌≢◌, ◌≤◌, [], false, IfErr, IfOk, IsTrue, Ok, Some, true, ℕ};
ghost use Rattle.q_agent.specs.Sessions.{is_sweep_over, link_waits};
ghost use Rattle.q_drain.specs.Drained.{AreTooFew, CountsRests, Drains, EndsAs, IsDrainError, RestsBehind};
ghost use Rattle.q_drain.specs.Exits.{EndsEarly, ForStarted, MayStart};
ghost use Rattle.q_drain.specs.declared.driver.Drained.TheVariants.{Quiet, Unfinished};
ghost use Rattle.q_engine.specs.Refusals.{EngineCause, is_unreadable};
ghost use Rattle.q_engine.specs.Stands.{IsReady};
ghost use Rattle.q_engine.specs.Stops.{EachStop, FindsReadable, StopCause};
ghost use Rattle.q_engine.specs.declared.engine.Engine.{Engine as Started};
ghost use Rattle.q_host.specs.View.{Told};

use crate::poll::Served;
use crate::sweep::{Sweep, make_sweep};
use q_agent::Agent;
use q_engine::{Engine, EngineError, Stop, stopped_by};
use q_host::Host;
use q_link::{Hops, Link};
use q_model::Bound;
use q_stream::Clock;
use std::alloc::Global;

/// How a drain ends.
#[derive(Drop)]
pub enum Drained {
    /// No delivery is in flight.
    Quiet { engine: Engine },
    /// So many rests were given, and another is needed.
    Unfinished { rests: u64 },
}

/// Gives the rest behind a sweep that did nothing, unless all were given: then `None` comes. Behind
/// a sweep that did something no rest is due. The answer is how many were given.
fn rest_behind<L: Link, N: Hops<Link = L>>(
    agent: &mut Agent<L>,
    hops: &mut N,
    busy: bool,
    given: u64,
    rests: u64,
) -> Option<u64>
    requires over { is_sweep_over agent.old ≡ true }
    requires some { busy ≡ false → agent.old.listed ≢ [] }
    requires waits { list_all link_waits agent.old.listed ≡ true }
    requires few { given ≤ rests }
    ensures { RestsBehind busy given rests agent.old agent.new (N.view hops.old) (N.view hops.new)
        result }
{
    if busy {
        return Some(given);
    }
    if given == rests {
        return None;
    }
    agent.rest(hops);
    Some(given + 1)
}

/// Makes sweep after sweep. `None` comes where no number is left for a delivery.
fn make_sweeps<L: Link, H: Host, C: Clock, N: Hops<Link = L>>(
    alloc: Global,
    engine: Engine,
    host: &mut H,
    clock: &mut C,
    hops: &mut N,
    rests: u64,
) -> Result<Option<Drained>, Stop>
    requires ready { IsReady engine }
    requires stands { IsTrue H.tells → MayStart engine (H.view host.old) }
    ensures ok { IfOk result (λ end. Told H.tells H.view host.old host.new (λ u v.
        ForStarted engine u (λ w l. EndsAs w l (record {
          before = record { clock = C.given clock.old; hops = N.view hops.old };
          behind = record { clock = C.given clock.new; hops = N.view hops.new };
        }) u v end))) }
    ensures ready { IfOk result (λ end. (next : Started) → end ≡ Some (Quiet next) → IsReady next) }
    ensures unfinished { IfOk result (λ end. (n : ℕ) → end ≡ Some (Unfinished n)
        → (n ≡ rests) × CountsRests (N.view hops.old) (N.view hops.new) rests) }
    ensures few { IfOk result (λ end. (n : ℕ) → end ≡ Some (Unfinished n)
        → AreTooFew rests (N.view hops.old)) }
    ensures err { EachStop result (λ error. Told H.tells H.view host.old host.new (λ u v.
        ForStarted engine u (λ w l. EndsEarly w l (record {
          before = record { clock = C.given clock.old; hops = N.view hops.old };
          behind = record { clock = C.given clock.new; hops = N.view hops.new };
        }) u v error))) }
    ensures readable { FindsReadable H.tells result }
    ensures cause { StopCause (H.faults host.old) (H.faults host.new) result }
{
    let mut agent = Agent::new(alloc);
    let mut served = Served {
        engine,
        known: 0,
        busy: false,
    };
    let mut first = true;
    let mut given = 0;
    'sweeps: loop {
        let Served { engine, known, .. } = served;
        served = match make_sweep(alloc, engine, &mut agent, host, clock, hops, known, first)? {
            Sweep::Over(served) => served,
            Sweep::Idle(engine) => return Ok(Some(Drained::Quiet { engine })),
            Sweep::Full => return Ok(None),
        };
        let Some(more) = rest_behind(&mut agent, hops, served.busy, given, rests) else {
            return Ok(Some(Drained::Unfinished { rests }));
        };
        given = more;
        first = false;
    }
}

/// Delivers the messages of a life that has just begun, by SMTP (RFC 5321), sweep by sweep, until
/// no delivery is in flight. A sweep hears the clock, polls each open session once, and opens those
/// of the deliveries that begin meanwhile. Where in a sweep no session was over and none was
/// opened, a rest follows it, of which there are so many.
///
/// `Quiet` comes behind a sweep in which no session was open. `Unfinished` comes where all rests
/// were given, and another is needed. `Disk` and `Tell` come where the host failed, `NoMemory`
/// where memory ran out; then the turn of the last event was told in part. `Unreadable` names a
/// queue file of this life that can't be read any longer. `Limit` of deliveries comes where a
/// session is over, and the life has begun 2^48 deliveries: its reply isn't told.
pub fn drain<L: Link, H: Host, C: Clock, N: Hops<Link = L>>(
    alloc: Global,
    engine: Engine,
    host: &mut H,
    clock: &mut C,
    hops: &mut N,
    rests: u64,
) -> Result<Drained, EngineError>
    requires ready { IsReady engine }
    // Where the host tells its files, it and the engine stand for the ledger of such a life.
    requires stands { IsTrue H.tells → MayStart engine (H.view host.old) }
    ensures ends { Told H.tells H.view host.old host.new (Drains engine (record {
      before = record { clock = C.given clock.old; hops = N.view hops.old };
      behind = record { clock = C.given clock.new; hops = N.view hops.new };
    }) result) }
    ensures ready { (next : Started) → result ≡ Ok (Quiet next) → IsReady next }
    ensures unfinished { (n : ℕ) → result ≡ Ok (Unfinished n)
        → (n ≡ rests) × CountsRests (N.view hops.old) (N.view hops.new) rests }
    // As many rests suffice as the links may answer `NotYet`.
    ensures few { (n : ℕ) → result ≡ Ok (Unfinished n) → AreTooFew rests (N.view hops.old) }
    ensures kinds { IfErr result IsDrainError }
    // Where the host tells its files, each can be read.
    ensures readable { IsTrue H.tells → IfErr result (λ error. is_unreadable error ≡ false) }
    ensures cause { EngineCause (H.faults host.old) (H.faults host.new) result }
{
    match make_sweeps(alloc, engine, host, clock, hops, rests) {
        Ok(Some(drained)) => Ok(drained),
        Ok(None) => Err(EngineError::Limit {
            bound: Bound::Deliveries,
        }),
        Err(stop) => Err(stopped_by(stop)),
    }
}
