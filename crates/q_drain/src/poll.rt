//! The polls of a sweep.
ghost use Rattle.std.specs.Prelude.{◌≡◌, ◌+◌, ◌<◌, ◌^◌, ◌≤◌, false, IfOk, IfSome, IsTrue, List, OnOk, Option, true, ℕ};
ghost use Rattle.std.specs.List.{list_all};
ghost use Rattle.q_agent.specs.Sessions.{is_sweep_over};
ghost use Rattle.q_agent.specs.WaitsLeft.{waits_left};
ghost use Rattle.q_core.specs.Hearing.{has_log_code};
ghost use Rattle.q_drain.specs.Polling.{IsPolling, KeepsSame};
ghost use Rattle.q_drain.specs.Replied.{IsAwaited};
ghost use Rattle.q_drain.specs.Progress.{LeavesLess, OpensUpTo, polls_left, work_left};
ghost use Rattle.q_drain.specs.Reported.{GivesUpReport, HearsReport, MayOpenBehind};
ghost use Rattle.q_drain.specs.Served.{GivesUpServing, MayServe, PollsOn};
ghost use Rattle.q_drain.specs.Waits.{idle};
ghost use Rattle.q_engine.specs.Stands.{IsReady};
ghost use Rattle.q_engine.specs.Steps.{StandsForSome};
ghost use Rattle.q_engine.specs.Stops.{EachStop, FindsReadable, StopCause};
ghost use Rattle.q_link.specs.WaitsLeft.{Spares};
ghost use Rattle.q_model.specs.Replies.{fits_state};

use crate::opening::open_started;
use crate::reply::tell_reply;
use q_agent::{Agent, Report};
use q_engine::{Engine, Stop};
use q_host::Host;
use q_link::{Hops, Link};
use q_model::MOST_DELIVERIES;
use std::alloc::Global;

/// The engine within a sweep. The deliveries up to the number that is known have had their
/// sessions, and `busy` says that a delivery began or ended in this sweep.
#[derive(Drop)]
pub(crate) struct Served {
    pub(crate) engine: Engine,
    pub(crate) known: u64,
    pub(crate) busy: bool,
}

/// The reply of a report is carried out and told, and the sessions of the deliveries that begin then
/// are opened.
fn hear_report<L: Link, H: Host, N: Hops<Link = L>>(
    alloc: Global,
    engine: Engine,
    agent: &mut Agent<L>,
    host: &mut H,
    hops: &mut N,
    report: Report,
    known: u64,
) -> Result<Served, Stop>
    requires ready { IsReady engine }
    requires timed { engine.core.value.timed ≡ true }
    requires awaited { IsAwaited engine report }
    requires fits { fits_state report.site report.outcomes ≡ true }
    requires codes { list_all has_log_code report.outcomes ≡ true }
    requires polling { IsPolling agent.old (known + 1) }
    requires stands { IsTrue H.tells → StandsForSome engine (H.view host.old) }
    requires opens { IsTrue H.tells → (clock : Option (List ℕ)) × MayOpenBehind H.view clock report
        engine host.old (N.view hops.old) agent.old known }
    ensures ok { IfOk result (λ next. IsTrue H.tells → HearsReport H.view report engine
        next host.old host.new (N.view hops.old) (N.view hops.new) agent.old agent.new known) }
    ensures ready { IfOk result (λ next. IsReady next.engine) }
    ensures timed { IfOk result (λ next. next.engine.core.value.timed ≡ true) }
    ensures polling { IfOk result (λ next. IsPolling agent.new (next.known + 1)) }
    ensures busy { IfOk result (λ next. next.busy ≡ true) }
    ensures opens { IfOk result (λ next. known ≤ next.known
        × OpensUpTo known next.known agent.old agent.new) }
    ensures fits { IfOk result (λ next. next.known < 2 ^ 64) }
    ensures spares { OnOk result (Spares 0 (waits_left (N.view hops.old) agent.old)
        (waits_left (N.view hops.new) agent.new)) }
    ensures rests { (N.view hops.new).rests ≡ (N.view hops.old).rests }
    ensures err { EachStop result (λ error. IsTrue H.tells → GivesUpReport H.view report engine
        error host.old host.new (N.view hops.old) (N.view hops.new) agent.old known) }
    ensures readable { FindsReadable H.tells result }
    ensures cause { StopCause (H.faults host.old) (H.faults host.new) result }
{
    let engine = tell_reply(alloc, engine, host, report)?;
    let known = open_started(alloc, &engine, agent, host, hops, known)?;
    Ok(Served {
        engine,
        known,
        busy: true,
    })
}

/// Polls the next session of a sweep that isn't over. Where that session is over, its reply is
/// carried out and told, and the sessions of the deliveries that begin then are opened. `None`
/// comes where it is over, and the life has begun as many deliveries as it may: its link is closed,
/// and its reply isn't told. Nor is one that the engine doesn't await, which no host that tells its
/// files leads to.
fn poll_next<L: Link, H: Host, N: Hops<Link = L>>(
    alloc: Global,
    served: Served,
    agent: &mut Agent<L>,
    host: &mut H,
    hops: &mut N,
) -> Result<Option<Served>, Stop>
    requires ready { IsReady served.engine }
    requires timed { served.engine.core.value.timed ≡ true }
    requires over { is_sweep_over agent.old ≡ false }
    requires polling { IsPolling agent.old (served.known + 1) }
    requires serves { IsTrue H.tells → (clock : Option (List ℕ))
        × MayServe clock (H.view host.old) (N.view hops.old) served agent.old }
    ensures ok { IfOk result (λ next. IsTrue H.tells → PollsOn served next (H.view host.old)
        (H.view host.new) (N.view hops.old) (N.view hops.new) agent.old agent.new) }
    ensures ready { IfOk result (λ next. IfSome next (λ s. IsReady s.engine)) }
    ensures timed { IfOk result (λ next. IfSome next (λ s. s.engine.core.value.timed ≡ true)) }
    ensures polling { IfOk result (λ next. IfSome next (λ s. IsPolling agent.new (s.known + 1))) }
    ensures same { IfOk result (λ next. IfSome next (λ s. KeepsSame served.busy s.busy
        served.known s.known agent.old agent.new)) }
    ensures fewer { IfOk result (λ next. IfSome next (λ s.
        polls_left s.known agent.new < polls_left served.known agent.old)) }
    ensures left { IfOk result (λ next. IfSome next (λ s. LeavesLess served.busy s.busy
        (work_left served.known agent.old) (work_left s.known agent.new))) }
    ensures spares { IfOk result (λ next. IfSome next (λ s. Spares (idle s.busy)
        (waits_left (N.view hops.old) agent.old) (waits_left (N.view hops.new) agent.new))) }
    ensures rests { (N.view hops.new).rests ≡ (N.view hops.old).rests }
    ensures err { EachStop result (λ error. IsTrue H.tells → GivesUpServing served error
        (H.view host.old) (H.view host.new) (N.view hops.old) (N.view hops.new) agent.old) }
    ensures readable { FindsReadable H.tells result }
    ensures cause { StopCause (H.faults host.old) (H.faults host.new) result }
{
    let Served {
        engine,
        known,
        busy,
    } = served;
    let Some(report) = agent.poll_next(alloc, host, hops, engine.now())? else {
        return Ok(Some(Served {
            engine,
            known,
            busy,
        }));
    };
    if engine.refuses_reply(report.number, &report.outcomes) {
        return Ok(Some(Served {
            engine,
            known,
            busy: true,
        }));
    }
    if engine.last_number() >= MOST_DELIVERIES {
        return Ok(None);
    }
    let next = hear_report(alloc, engine, agent, host, hops, report, known)?;
    Ok(Some(next))
}

/// Polls each open session that this sweep hasn't polled, those too that are opened meanwhile, in
/// order of their numbers. `None` comes as it does of one poll.
pub(crate) fn poll_all<L: Link, H: Host, N: Hops<Link = L>>(
    alloc: Global,
    begun: Served,
    agent: &mut Agent<L>,
    host: &mut H,
    hops: &mut N,
) -> Result<Option<Served>, Stop>
    requires ready { IsReady begun.engine }
    requires timed { begun.engine.core.value.timed ≡ true }
    requires polling { IsPolling agent.old (begun.known + 1) }
    requires serves { IsTrue H.tells → (clock : Option (List ℕ))
        × MayServe clock (H.view host.old) (N.view hops.old) begun agent.old }
    ensures ok { IfOk result (λ next. IsTrue H.tells → PollsOn begun next (H.view host.old)
        (H.view host.new) (N.view hops.old) (N.view hops.new) agent.old agent.new) }
    ensures over { IfOk result (λ next. IfSome next (λ s. is_sweep_over agent.new ≡ true)) }
    ensures ready { IfOk result (λ next. IfSome next (λ s. IsReady s.engine)) }
    ensures timed { IfOk result (λ next. IfSome next (λ s. s.engine.core.value.timed ≡ true)) }
    ensures polling { IfOk result (λ next. IfSome next (λ s. IsPolling agent.new (s.known + 1))) }
    ensures same { IfOk result (λ next. IfSome next (λ s. KeepsSame begun.busy s.busy
        begun.known s.known agent.old agent.new)) }
    ensures left { IfOk result (λ next. IfSome next (λ s. LeavesLess begun.busy s.busy
        (work_left begun.known agent.old) (work_left s.known agent.new))) }
    ensures spares { is_sweep_over agent.old ≡ false → IfOk result (λ next. IfSome next (λ s.
        Spares (idle s.busy) (waits_left (N.view hops.old) agent.old)
        (waits_left (N.view hops.new) agent.new))) }
    ensures rests { (N.view hops.new).rests ≡ (N.view hops.old).rests }
    ensures err { EachStop result (λ error. IsTrue H.tells → GivesUpServing begun error
        (H.view host.old) (H.view host.new) (N.view hops.old) (N.view hops.new) agent.old) }
    ensures readable { FindsReadable H.tells result }
    ensures cause { StopCause (H.faults host.old) (H.faults host.new) result }
{
    let mut served = begun;
    'polls: while !agent.sweep_over() {
        let Some(next) = poll_next(alloc, served, agent, host, hops)? else {
            return Ok(None);
        };
        served = next;
    }
    Ok(Some(served))
}
