//! A sweep of a drain.
ghost use Rattle.std.specs.Prelude.{◌+◌, ◌≡◌, ◌≢◌, [], false, IfOk, IsTrue, true};
ghost use Rattle.q_agent.specs.Sessions.{is_sweep_over};
ghost use Rattle.q_agent.specs.WaitsLeft.{waits_left};
ghost use Rattle.q_drain.specs.Polling.{AreInOrder, IsPolling, KeepsSame};
ghost use Rattle.q_drain.specs.Progress.{LeavesLess, work_left};
ghost use Rattle.q_drain.specs.Swept.{GivesSweepUp, MaySweep, OfEngine, OfServed, SweepsTo};
ghost use Rattle.q_drain.specs.Waits.{idle};
ghost use Rattle.q_engine.specs.Stands.{IsReady};
ghost use Rattle.q_engine.specs.Stops.{EachStop, FindsReadable, StopCause};
ghost use Rattle.q_link.specs.WaitsLeft.{Spares};

use crate::hearing::hear_clock;
use crate::opening::open_started;
use crate::poll::{Served, poll_all};
use q_agent::Agent;
use q_engine::{Engine, Stop};
use q_host::Host;
use q_link::{Hops, Link};
use q_stream::Clock;
use std::alloc::Global;

/// What came of a sweep.
#[derive(Drop)]
pub(crate) enum Sweep {
    /// No session was open.
    Idle(Engine),
    /// Each session was polled, and those that are still open wait.
    Over(Served),
    /// A session is over, and the life has begun as many deliveries as it may.
    Full,
}

/// Makes one sweep: hears the clock, and polls each open session once. The deliveries up to the
/// number that is known have had their sessions.
pub(crate) fn make_sweep<L: Link, H: Host, C: Clock, N: Hops<Link = L>>(
    alloc: Global,
    engine: Engine,
    agent: &mut Agent<L>,
    host: &mut H,
    clock: &mut C,
    hops: &mut N,
    known: u64,
    first: bool,
) -> Result<Sweep, Stop>
    requires ready { IsReady engine }
    requires timed { first ≡ false → engine.core.value.timed ≡ true }
    requires order { AreInOrder agent.old.listed (known + 1) }
    requires stands { IsTrue H.tells → MaySweep (record {
      clock = C.given clock.old;
      hops = N.view hops.old;
    }) (H.view host.old) engine agent.old.listed known first }
    ensures ok { IfOk result (λ sweep. IsTrue H.tells → SweepsTo (record {
      before = record { clock = C.given clock.old; hops = N.view hops.old };
      behind = record { clock = C.given clock.new; hops = N.view hops.new };
    })
        (H.view host.old) (H.view host.new) engine agent.old.listed known first sweep agent.new) }
    ensures ready { IfOk result (λ sweep. OfEngine sweep (λ engine. IsReady engine)) }
    ensures timed { IfOk result (λ sweep. OfEngine sweep (λ engine.
        engine.core.value.timed ≡ true)) }
    ensures polling { IfOk result (λ sweep. OfServed sweep (λ served.
        IsPolling agent.new (served.known + 1) × (is_sweep_over agent.new ≡ true))) }
    ensures some { IfOk result (λ sweep. OfServed sweep (λ served.
        served.busy ≡ false → agent.new.listed ≢ [])) }
    ensures same { IfOk result (λ sweep. OfServed sweep (λ served. KeepsSame false served.busy
        known served.known agent.old agent.new)) }
    ensures left { IfOk result (λ sweep. OfServed sweep (λ served. LeavesLess false served.busy
        (work_left known agent.old) (work_left served.known agent.new))) }
    ensures spares { IfOk result (λ sweep. OfServed sweep (λ served. Spares (idle served.busy)
        (waits_left (N.view hops.old) agent.old) (waits_left (N.view hops.new) agent.new))) }
    ensures rests { (N.view hops.new).rests ≡ (N.view hops.old).rests }
    ensures err { EachStop result (λ error. IsTrue H.tells → GivesSweepUp (record {
      before = record { clock = C.given clock.old; hops = N.view hops.old };
      behind = record { clock = C.given clock.new; hops = N.view hops.new };
    })
        (H.view host.old) (H.view host.new) engine agent.old.listed known first error) }
    ensures readable { FindsReadable H.tells result }
    ensures cause { StopCause (H.faults host.old) (H.faults host.new) result }
{
    agent.next_sweep();
    let engine = hear_clock(alloc, engine, host, clock, first)?;
    let opened = open_started(alloc, &engine, agent, host, hops, known)?;
    if agent.is_empty() {
        return Ok(Sweep::Idle(engine));
    }
    let served = Served {
        engine,
        known: opened,
        busy: known < opened,
    };
    match poll_all(alloc, served, agent, host, hops)? {
        Some(served) => Ok(Sweep::Over(served)),
        None => Ok(Sweep::Full),
    }
}
