//! One poll of a session, and what follows it.
ghost use Rattle.std.specs.Prelude.{◌≡◌, ◌≢◌, ◌≤◌, false, IfErr, IsTrue, true};
ghost use Rattle.q_link.specs.Views.{NoWait};
ghost use Rattle.q_listen.specs.Phases.{CountsPolled, IsReadyAt, KeepsDoor, LeavesLess, PollsOn, RestsOnce, ServesPoll};
ghost use Rattle.q_listen.specs.Refusals.{is_of_life, is_unreadable, ListenCause};

use crate::hearing::{Life, take_mail};
use crate::listened::ListenError;
use q_door::Door;
use q_host::Host;
use q_link::Link;
use q_model::NoMemory;
use q_smtpd::{Intake, Served};
use std::alloc::Global;

/// What came of a poll.
#[derive(Drop)]
pub(crate) enum Polled {
    /// The session goes on, with another moment.
    Onward(Life),
    /// The session is over.
    Over(Life),
    /// A rest is needed, and all were given.
    Spent,
}

/// Gives the rest behind a poll that waits, unless all were given.
fn rest_once<L: Link, D: Door<Link = L>>(
    life: Life,
    door: &mut D,
    link: &mut L,
    rests: u64,
) -> Polled
    requires waits { (L.view link.old).wait ≢ NoWait }
    requires few { life.given ≤ rests }
    ensures { RestsOnce (D.view door.old) (D.view door.new) (L.view link.old) (L.view link.new) life
        rests result }
{
    if life.given == rests {
        return Polled::Spent;
    }
    door.rest(link);
    let Life {
        engine,
        given,
        first,
    } = life;
    Polled::Onward(Life {
        engine,
        given: given + 1,
        first,
    })
}

/// Polls the session once, at the last moment that was told. A rest follows where it waits, and where a
/// message came, this is told and then acknowledged.
pub(crate) fn serve_poll<L: Link, H: Host, D: Door<Link = L>>(
    alloc: Global,
    life: Life,
    host: &mut H,
    door: &mut D,
    intake: &mut Intake,
    link: &mut L,
    rests: u64,
) -> Result<Polled, ListenError>
    requires ready { IsReadyAt H.tells rests (H.view host.old) life }
    requires heard { life.first ≡ false }
    requires goes_on { intake.old.over ≡ false }
    requires taken { intake.old.untaken ≡ false }
    ensures serves { IsTrue H.tells → ServesPoll H.view (D.view door.old) (D.view door.new)
        (H.view host.old) (H.view host.new) life (L.view link.old) (L.view link.new)
        intake.old intake.new rests result }
    ensures goes_on { PollsOn H.tells rests (H.view host.new) intake.new result }
    // It waited, and a rest was given, or a byte came.
    ensures less { LeavesLess rests life intake.old intake.new result }
    ensures counts { CountsPolled (D.view door.old) (L.view link.old) life (D.view door.new)
        (L.view link.new) rests result }
    ensures readable { IsTrue H.tells → IfErr result (λ error. is_unreadable error ≡ false) }
    ensures named { IfErr result (λ error. is_of_life error ≡ true) }
    ensures cause { ListenCause (H.faults host.old) (H.faults host.new) result }
    ensures no_door { IfErr result (λ error. error ≢ ListenError.Door) }
    ensures door { KeepsDoor (D.view door.old) (D.view door.new) }
{
    let now = life.engine.now();
    match intake.poll(alloc, link, now) {
        Ok(Served::Working) => Ok(rest_once(life, door, link, rests)),
        Ok(
            Served::Message {
                sender,
                to,
                content,
            },
        ) => match take_mail(alloc, life, host, sender, to, content) {
            Ok(next) => {
                intake.taken();
                Ok(Polled::Onward(next))
            }
            Err(error) => Err(error),
        },
        Ok(Served::Over) => Ok(Polled::Over(life)),
        Err(NoMemory) => Err(ListenError::NoMemory),
    }
}
