//! What a life that listens hears: the moments of its clock, and messages.
ghost use Rattle.std.specs.Prelude.{◌≡◌, ◌≢◌, false, IfErr, IfOk, IsTrue, true};
ghost use Rattle.q_engine.specs.Steps.{StandsForSome};
ghost use Rattle.q_listen.specs.Courses.{IsGoing};
ghost use Rattle.q_listen.specs.Refusals.{is_of_life, is_unreadable, ListenCause};
ghost use Rattle.q_listen.specs.Turns.{HearsMoment, StopsMail, StopsMoment, TakesMail};
ghost use Rattle.q_smtpd.specs.Fits.{IsFit};

use crate::fault::listen_error;
use crate::listened::ListenError;
use q_engine::Engine;
use q_host::Host;
use q_model::{Address, Addresses, Bytes, Event};
use q_replay::hear;
use q_stream::Clock;
use std::alloc::Global;

/// A life that listens.
#[derive(Drop)]
pub(crate) struct Life {
    pub(crate) engine: Engine,
    // how many rests were given
    pub(crate) given: u64,
    // no moment came yet
    pub(crate) first: bool,
}

/// Reads the clock once, and tells the moment where it is the first or past those before it.
pub(crate) fn hear_moment<H: Host, C: Clock>(
    alloc: Global,
    life: Life,
    host: &mut H,
    clock: &mut C,
) -> Result<Life, ListenError>
    requires going { IsGoing life }
    requires stands { IsTrue H.tells → StandsForSome life.engine (H.view host.old) }
    ensures ok { IfOk result (λ next. IsTrue H.tells → HearsMoment H.view (C.given clock.old)
        (C.given clock.new) (H.view host.old) (H.view host.new) life next) }
    ensures stands { IfOk result (λ next. IsTrue H.tells
        → StandsForSome next.engine (H.view host.new)) }
    ensures going { IfOk result IsGoing }
    ensures heard { IfOk result (λ next. next.first ≡ false) }
    ensures given { IfOk result (λ next. next.given ≡ life.given) }
    ensures err { IfErr result (λ error. IsTrue H.tells → StopsMoment H.view (C.given clock.old)
        (C.given clock.new) (H.view host.old) (H.view host.new) life error) }
    ensures readable { IsTrue H.tells → IfErr result (λ error. is_unreadable error ≡ false) }
    ensures named { IfErr result (λ error. is_of_life error ≡ true) }
    ensures no_door { IfErr result (λ error. error ≢ ListenError.Door) }
    ensures cause { ListenCause (H.faults host.old) (H.faults host.new) result }
{
    let moment = clock.now();
    if !life.first && moment <= life.engine.now() {
        return Ok(life);
    }
    let Life { engine, given, .. } = life;
    match hear(alloc, host, engine, Event::At { moment }, 0) {
        Ok(engine) => Ok(Life {
            engine,
            given,
            first: false,
        }),
        Err(error) => Err(listen_error(error)),
    }
}

/// Takes a message that came. `Limit` comes where no serial is left.
pub(crate) fn take_mail<H: Host>(
    alloc: Global,
    life: Life,
    host: &mut H,
    sender: Option<Address>,
    to: Addresses,
    content: Bytes,
) -> Result<Life, ListenError>
    requires going { IsGoing life }
    requires heard { life.first ≡ false }
    requires form { IsFit (record { sender = sender; to = to; content = content }) }
    requires stands { IsTrue H.tells → StandsForSome life.engine (H.view host.old) }
    ensures ok { IfOk result (λ next. IsTrue H.tells → TakesMail H.view (H.view host.old)
        (H.view host.new) (record { sender = sender; to = to; content = content }) life next) }
    ensures stands { IfOk result (λ next. IsTrue H.tells
        → StandsForSome next.engine (H.view host.new)) }
    ensures going { IfOk result IsGoing }
    ensures heard { IfOk result (λ next. next.first ≡ false) }
    ensures given { IfOk result (λ next. next.given ≡ life.given) }
    ensures err { IfErr result (λ error. IsTrue H.tells → StopsMail H.view (H.view host.old)
        (H.view host.new) (record { sender = sender; to = to; content = content }) life error) }
    ensures readable { IsTrue H.tells → IfErr result (λ error. is_unreadable error ≡ false) }
    ensures named { IfErr result (λ error. is_of_life error ≡ true) }
    ensures no_door { IfErr result (λ error. error ≢ ListenError.Door) }
    ensures cause { ListenCause (H.faults host.old) (H.faults host.new) result }
{
    let Life {
        engine,
        given,
        first,
    } = life;
    let mail = Event::Mail {
        sender,
        to,
        content,
    };
    match hear(alloc, host, engine, mail, 0) {
        Ok(engine) => Ok(Life {
            engine,
            given,
            first,
        }),
        Err(error) => Err(listen_error(error)),
    }
}
