//! The sessions of deliveries that have begun.
ghost use Rattle.std.specs.Prelude.{◌≡◌, ◌≤◌, ◌<◌, ◌^◌, ◌+◌, IfOk, IsTrue, List, Option, ℕ, OnErr, OnOk};
ghost use Rattle.q_agent.specs.WaitsLeft.{waits_left};
ghost use Rattle.q_drain.specs.Opened.{
  FailsToOpen,
  FailsToOpenAll,
  MayOpen,
  MayOpenAll,
  OpensAll,
  OpensFirst,
};
ghost use Rattle.q_drain.specs.Polling.{IsPolling};
ghost use Rattle.q_drain.specs.Progress.{OpensIfInFlight, OpensUpTo};
ghost use Rattle.q_host.specs.Calls.{Stays};
ghost use Rattle.q_host.specs.Faults.{DiskCause};
ghost use Rattle.q_link.specs.WaitsLeft.{Spares};

use q_agent::{Agent, Request};
use q_engine::Engine;
use q_host::{Host, HostError};
use q_link::{Hops, Link};
use q_model::Positions;
use std::alloc::Global;

/// Opens the session of the delivery of this number, the first in flight that has none. Where none of
/// this number is in flight, which no host that tells its files leads to, there is none to open. After
/// an error none was opened, and a connection may have been made.
fn open_next<L: Link, H: Host, N: Hops<Link = L>>(
    alloc: Global,
    engine: &Engine,
    agent: &mut Agent<L>,
    host: &mut H,
    hops: &mut N,
    number: u64,
) -> Result<(), HostError>
    requires polling { IsPolling agent.old number }
    requires first { IsTrue H.tells → (clock : Option (List ℕ))
        × MayOpen clock (H.view host.old) (N.view hops.old) engine.now agent.old number }
    ensures ok { OnOk result (IsTrue H.tells → OpensFirst engine.now (H.view host.old)
        (H.view host.new) (N.view hops.old) (N.view hops.new) agent.old agent.new number) }
    ensures polling { OnOk result (IsPolling agent.new (number + 1)) }
    ensures opens { OnOk result (OpensIfInFlight engine.now number agent.old agent.new) }
    ensures spares { OnOk result (Spares 0 (waits_left (N.view hops.old) agent.old)
        (waits_left (N.view hops.new) agent.new)) }
    ensures polled { agent.new.polled ≡ agent.old.polled }
    ensures rests { (N.view hops.new).rests ≡ (N.view hops.old).rests }
    ensures err { OnErr result (IsTrue H.tells → FailsToOpen engine.now (H.view host.old)
        (N.view hops.old) (N.view hops.new) agent.old number) }
    ensures stays { IsTrue H.tells → Stays (H.view host.old) (H.view host.new) }
    ensures cause { DiskCause (H.faults host.old) (H.faults host.new) result }
{
    let (Some(flight), Some(positions)) = (engine.flight(number), engine.positions(number)) else {
        return Ok(());
    };
    let to = Positions::from_vec(positions.to_vec(alloc)?);
    let request = Request {
        number,
        id: flight.id,
        site: flight.site,
    };
    agent.request(alloc, host, hops, request, &to, engine.now())
}

/// Opens the sessions of all deliveries behind the first `known`, which have theirs. The answer is
/// the number of the last one. After an error some may be open.
pub(crate) fn open_started<L: Link, H: Host, N: Hops<Link = L>>(
    alloc: Global,
    engine: &Engine,
    agent: &mut Agent<L>,
    host: &mut H,
    hops: &mut N,
    known: u64,
) -> Result<u64, HostError>
    requires polling { IsPolling agent.old (known + 1) }
    requires stands { IsTrue H.tells → (clock : Option (List ℕ))
        × MayOpenAll clock (H.view host.old) (N.view hops.old) engine.now agent.old known }
    ensures ok { IfOk result (λ last. IsTrue H.tells → OpensAll engine.now (H.view host.old)
        (H.view host.new) (N.view hops.old) (N.view hops.new) agent.old agent.new known last) }
    ensures last { IfOk result (λ last. known ≤ last × IsPolling agent.new (last + 1)) }
    ensures opens { IfOk result (λ last. OpensUpTo known last agent.old agent.new) }
    ensures spares { OnOk result (Spares 0 (waits_left (N.view hops.old) agent.old)
        (waits_left (N.view hops.new) agent.new)) }
    ensures fits { IfOk result (λ last. last < 2 ^ 64) }
    ensures polled { agent.new.polled ≡ agent.old.polled }
    ensures rests { (N.view hops.new).rests ≡ (N.view hops.old).rests }
    ensures err { OnErr result (IsTrue H.tells → FailsToOpenAll engine.now (H.view host.old)
        (H.view host.new) (N.view hops.old) (N.view hops.new) agent.old known) }
    ensures cause { DiskCause (H.faults host.old) (H.faults host.new) result }
{
    let last = engine.last_number();
    let mut number = known;
    while number < last {
        number += 1;
        open_next(alloc, engine, agent, host, hops, number)?;
    }
    Ok(number)
}
