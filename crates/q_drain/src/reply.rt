//! The reply of a delivery that is over.
ghost use Rattle.std.specs.List.{list_all};
ghost use Rattle.std.specs.Prelude.{◌≡◌, IfOk, IsTrue, List, true};
ghost use Rattle.q_drain.specs.Replied.{HaltsReply, IsAwaited, Replies};
ghost use Rattle.q_core.specs.Hearing.{has_log_code};
ghost use Rattle.q_engine.specs.Stands.{IsReady};
ghost use Rattle.q_engine.specs.Steps.{StandsForSome};
ghost use Rattle.q_engine.specs.Stops.{EachStop, FindsReadable, StopCause};
ghost use Rattle.q_host.specs.View.{Told};
ghost use Rattle.q_model.specs.Replies.{fits_state};

use crate::fault::stop_of;
use q_agent::Report;
use q_engine::{Engine, Stop};
use q_host::Host;
use q_model::Event;
use std::alloc::Global;

/// The turn of a report's reply is carried out and told. `Disk` and `Tell` come where the host failed,
/// `NoMemory` where memory ran out; then some first part of it was.
pub(crate) fn tell_reply<H: Host>(
    alloc: Global,
    engine: Engine,
    host: &mut H,
    report: Report,
) -> Result<Engine, Stop>
    requires ready { IsReady engine }
    requires timed { engine.core.value.timed ≡ true }
    requires awaited { IsAwaited engine report }
    requires fits { fits_state report.site report.outcomes ≡ true }
    requires codes { list_all has_log_code report.outcomes ≡ true }
    requires stands { IsTrue H.tells → StandsForSome engine (H.view host.old) }
    ensures ok { IfOk result (λ next. Told H.tells H.view host.old host.new
        (Replies report engine next)) }
    ensures ready { IfOk result (λ next. IsReady next) }
    ensures timed { IfOk result (λ next. next.core.value.timed ≡ true) }
    ensures err { EachStop result (λ error. Told H.tells H.view host.old host.new
        (HaltsReply report engine error)) }
    ensures readable { FindsReadable H.tells result }
    ensures cause { StopCause (H.faults host.old) (H.faults host.new) result }
{
    let Report {
        number,
        site,
        outcomes,
    } = report;
    let event = Event::Reply {
        number,
        site,
        outcomes,
    };
    match engine.step(alloc, host, event) {
        Ok(next) => Ok(next),
        Err(error) => Err(stop_of(error)),
    }
}
