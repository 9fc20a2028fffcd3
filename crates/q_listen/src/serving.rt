//! One link, from its accept until it is closed.
ghost use Rattle.std.specs.Prelude.{◌≡◌, ◌≢◌, false, IfErr, IsTrue, true};
ghost use Rattle.q_link.specs.WaitsLeft.{waits_sum};
ghost use Rattle.q_listen.specs.Phases.{CountsServed, IsReadyAt, KeepsDoor, ServesLink, ServesSession, StaysReady, unrecorded};
ghost use Rattle.q_listen.specs.Refusals.{DoorCause, is_of_life, is_unreadable, ListenCause};
ghost use Rattle.q_smtpd.specs.Sessions.{IsUnused};

use crate::hearing::{Life, hear_moment};
use crate::listened::ListenError;
use crate::polling::{Polled, serve_poll};
use q_door::{Door, DoorError};
use q_host::Host;
use q_link::Link;
use q_model::NoMemory;
use q_smtpd::Intake;
use q_stream::Clock;
use std::alloc::Global;

/// Serves the session of a link, over which nothing came or went yet, until it is over. `None` comes
/// where a rest is needed, and all were given.
fn serve_session<L: Link, H: Host, C: Clock, D: Door<Link = L>>(
    alloc: Global,
    life: Life,
    host: &mut H,
    clock: &mut C,
    door: &mut D,
    link: &mut L,
    rests: u64,
) -> Result<Option<Life>, ListenError>
    requires ready { IsReadyAt H.tells rests (H.view host.old) life }
    requires unused { IsUnused (L.view link.old) }
    ensures serves { IsTrue H.tells → ServesSession H.view (record {
      before = record { clock = C.given clock.old; door = D.view door.old };
      behind = record { clock = C.given clock.new; door = D.view door.new };
    }) (H.view host.old) (H.view host.new) life (L.view link.old) (L.view link.new) rests result }
    ensures ready { StaysReady H.tells rests (H.view host.new) result }
    ensures counts { CountsServed (D.view door.old)
        (waits_sum (D.view door.old).waits_left (L.view link.old).waits_left) life
        (D.view door.new) rests result }
    ensures readable { IsTrue H.tells → IfErr result (λ error. is_unreadable error ≡ false) }
    ensures named { IfErr result (λ error. is_of_life error ≡ true) }
    ensures cause { ListenCause (H.faults host.old) (H.faults host.new) result }
    ensures no_door { IfErr result (λ error. error ≢ ListenError.Door) }
    ensures door { KeepsDoor (D.view door.old) (D.view door.new) }
{
    let mut life = match hear_moment(alloc, life, host, clock) {
        Ok(life) => life,
        Err(error) => return Err(error),
    };
    let Ok(mut intake) = Intake::new(alloc, life.engine.now()) else {
        return Err(ListenError::NoMemory);
    };
    'polls: loop {
        let next = match serve_poll(alloc, life, host, door, &mut intake, link, rests) {
            Ok(Polled::Onward(next)) => next,
            Ok(Polled::Over(next)) => return Ok(Some(next)),
            Ok(Polled::Spent) => return Ok(None),
            Err(error) => return Err(error),
        };
        life = match hear_moment(alloc, next, host, clock) {
            Ok(life) => life,
            Err(error) => return Err(error),
        };
    }
}

/// The answer of a session whose link has no record, since memory ran out for it: what it was refused for
/// before stays, and nothing else does.
fn unrecorded(served: Result<Option<Life>, ListenError>) -> Result<Option<Life>, ListenError>
    ensures { result ≡ unrecorded served }
{
    match served {
        Ok(Some(_)) => Err(ListenError::NoMemory),
        Ok(None) => Err(ListenError::NoMemory),
        Err(error) => Err(error),
    }
}

/// Accepts a link, serves its session, and closes it. `Door` comes where the accept failed.
pub(crate) fn serve_link<L: Link, H: Host, C: Clock, D: Door<Link = L>>(
    alloc: Global,
    life: Life,
    host: &mut H,
    clock: &mut C,
    door: &mut D,
    rests: u64,
) -> Result<Option<Life>, ListenError>
    requires ready { IsReadyAt H.tells rests (H.view host.old) life }
    requires bound { (D.view door.old).bound ≡ true }
    ensures serves { IsTrue H.tells → ServesLink H.view (record {
      before = record { clock = C.given clock.old; door = D.view door.old };
      behind = record { clock = C.given clock.new; door = D.view door.new };
    }) (H.view host.old) (H.view host.new) life rests result }
    ensures ready { StaysReady H.tells rests (H.view host.new) result }
    ensures bound { (D.view door.new).bound ≡ true }
    ensures counts { CountsServed (D.view door.old) (D.view door.old).waits_left life
        (D.view door.new) rests result }
    ensures readable { IsTrue H.tells → IfErr result (λ error. is_unreadable error ≡ false) }
    ensures named { IfErr result (λ error. is_of_life error ≡ true) }
    ensures cause { ListenCause (H.faults host.old) (H.faults host.new) result }
    ensures door { DoorCause (D.view door.old).door_faults (D.view door.new).door_faults result }
{
    let mut link = match door.accept(alloc) {
        Ok(link) => link,
        Err(DoorError::Failed) => return Err(ListenError::Door),
        Err(DoorError::NoMemory) => return Err(ListenError::NoMemory),
    };
    let served = serve_session(alloc, life, host, clock, door, &mut link, rests);
    match door.close(alloc, link) {
        Ok(()) => served,
        Err(NoMemory) => unrecorded(served),
    }
}
