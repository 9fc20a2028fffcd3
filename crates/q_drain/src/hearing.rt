//! The moments of a clock.
ghost use Rattle.std.specs.Prelude.{◌≡◌, false, IfOk, IsTrue, true};
ghost use Rattle.q_drain.specs.Heard.{HearsClock, StopsHearingClock};
ghost use Rattle.q_engine.specs.Stands.{IsReady};
ghost use Rattle.q_engine.specs.Steps.{StandsForSome};
ghost use Rattle.q_engine.specs.Stops.{EachStop, FindsReadable, StopCause};

use crate::fault::stop_of;
use q_engine::{Engine, Stop};
use q_host::Host;
use q_model::Event;
use q_stream::Clock;
use std::alloc::Global;

/// Gives the engine the moment of the clock, where it is the first or past those before it: its turn
/// is carried out and told. Another moment is passed over. `first` says that this drain has heard
/// none yet. `Disk` and `Tell` come where the host failed, `NoMemory` where memory ran out; then some
/// first part of the turn was carried out. `Unreadable` names a queue file that can't be read.
pub(crate) fn hear_clock<H: Host, C: Clock>(
    alloc: Global,
    engine: Engine,
    host: &mut H,
    clock: &mut C,
    first: bool,
) -> Result<Engine, Stop>
    requires ready { IsReady engine }
    requires stands { IsTrue H.tells → StandsForSome engine (H.view host.old) }
    ensures ok { IfOk result (λ next. IsTrue H.tells → HearsClock first (H.view host.old)
        (H.view host.new) (C.given clock.old) (C.given clock.new) engine next) }
    ensures ready { IfOk result (λ next. IsReady next) }
    ensures timed { IfOk result (λ next. (first ≡ false → engine.core.value.timed ≡ true)
        → next.core.value.timed ≡ true) }
    ensures err { EachStop result (λ error. IsTrue H.tells
        → StopsHearingClock first (H.view host.old) (H.view host.new) (C.given clock.old)
        (C.given clock.new) engine error) }
    ensures readable { FindsReadable H.tells result }
    ensures cause { StopCause (H.faults host.old) (H.faults host.new) result }
{
    let moment = clock.now();
    if !first && moment <= engine.now() {
        return Ok(engine);
    }
    match engine.step(alloc, host, Event::At { moment }) {
        Ok(next) => Ok(next),
        Err(error) => Err(stop_of(error)),
    }
}
