//! One life that listens, from its beginning to its end.
ghost use Rattle.std.specs.Prelude.{◌≡◌, ◌≤◌, false, IfErr, IsTrue, Ok, true, ℕ};
ghost use Rattle.q_host.specs.View.{Told};
ghost use Rattle.q_listen.specs.ListenEnds.{AreTooFew, CountsRests, ListenEnds};
ghost use Rattle.q_listen.specs.Phases.{CountsServed, IsReadyAt, ListensOn, ServesLinks, StaysReady};
ghost use Rattle.q_listen.specs.Refusals.{DoorCause, FindsDamage, is_of_life, is_unreadable, IsListenRefusal, ListenCause, NamesOnlyDamage};
ghost use Rattle.q_listen.specs.declared.listened.Listened.TheVariants.{Unfinished};
ghost use Rattle.q_replay.specs.ReplayEnds.{ForOrderly, IsFitSpool};
ghost use Rattle.q_settings.specs.Ranges.{IsInRange};

use crate::fault::listen_error;
use crate::hearing::Life;
use crate::listened::{ListenError, Listened};
use crate::serving::serve_link;
use q_door::{Door, DoorError};
use q_host::Host;
use q_link::Link;
use q_model::Mode;
use q_replay::{begin_life, end, intake_params};
use q_settings::Params;
use q_stream::Clock;
use q_transport::Table;
use std::alloc::Global;

/// Serves so many links, one behind the other. `None` comes where a rest is needed, and all were given.
fn serve_links<L: Link, H: Host, C: Clock, D: Door<Link = L>>(
    alloc: Global,
    life: Life,
    host: &mut H,
    clock: &mut C,
    door: &mut D,
    count: u32,
    rests: u64,
) -> Result<Option<Life>, ListenError>
    requires ready { IsReadyAt H.tells rests (H.view host.old) life }
    requires bound { (D.view door.old).bound ≡ true }
    ensures serves { IsTrue H.tells → ServesLinks H.view (record {
      before = record { clock = C.given clock.old; door = D.view door.old };
      behind = record { clock = C.given clock.new; door = D.view door.new };
    }) (H.view host.old) (H.view host.new) life count rests result }
    ensures ready { StaysReady H.tells rests (H.view host.new) result }
    ensures counts { CountsServed (D.view door.old) (D.view door.old).waits_left life
        (D.view door.new) rests result }
    ensures readable { IsTrue H.tells → IfErr result (λ error. is_unreadable error ≡ false) }
    ensures named { IfErr result (λ error. is_of_life error ≡ true) }
    ensures cause { ListenCause (H.faults host.old) (H.faults host.new) result }
    ensures door { DoorCause (D.view door.old).door_faults (D.view door.new).door_faults result }
{
    let mut life = life;
    for link in 0..count {
        life = match serve_link(alloc, life, host, clock, door, rests) {
            Ok(Some(next)) => next,
            Ok(None) => return Ok(None),
            Err(error) => return Err(error),
        };
    }
    Ok(Some(life))
}

/// Takes the port, serves so many links, and ends the life, which has just begun.
fn listen_on<L: Link, H: Host, C: Clock, D: Door<Link = L>>(
    alloc: Global,
    life: Life,
    host: &mut H,
    clock: &mut C,
    door: &mut D,
    port: u16,
    count: u32,
    rests: u64,
) -> Result<Listened, ListenError>
    requires ready { IsReadyAt H.tells rests (H.view host.old) life }
    requires none { life.given ≡ 0 }
    ensures ends { IsTrue H.tells → ListensOn H.view (record {
      before = record { clock = C.given clock.old; door = D.view door.old };
      behind = record { clock = C.given clock.new; door = D.view door.new };
    }) (H.view host.old) (H.view host.new) life port count result }
    ensures unfinished { (n : ℕ) → result ≡ Ok (Unfinished n)
        → (n ≡ rests) × CountsRests (D.view door.old) (D.view door.new) rests }
    ensures few { (n : ℕ) → result ≡ Ok (Unfinished n) → AreTooFew rests (D.view door.old) }
    ensures readable { IsTrue H.tells → IfErr result (λ error. is_unreadable error ≡ false) }
    ensures named { IfErr result (λ error. is_of_life error ≡ true) }
    ensures cause { ListenCause (H.faults host.old) (H.faults host.new) result }
    ensures door { DoorCause (D.view door.old).door_faults (D.view door.new).door_faults result }
{
    match door.bind(port) {
        Ok(()) => {}
        Err(DoorError::Failed) => return Err(ListenError::Door),
        Err(DoorError::NoMemory) => return Err(ListenError::NoMemory),
    }
    match serve_links(alloc, life, host, clock, door, count, rests) {
        Ok(Some(last)) => match end(alloc, host, last.engine, 0) {
            Ok(()) => Ok(Listened::All),
            Err(error) => Err(listen_error(error)),
        },
        Ok(None) => Ok(Listened::Unfinished { rests }),
        Err(error) => Err(error),
    }
}

/// Begins an intake life on the spool of a host, takes a port, accepts so many connections there, one
/// behind the other, and takes the mail that each brings by SMTP (RFC 5321); then ends the life. A
/// message is acknowledged once its entry was told, behind what the disk holds of it.
///
/// Before each poll of a session the clock is read once, and the first moment, and each later one past
/// all before it, is told. A poll that waits is followed by a rest, of which there are so many:
/// `Unfinished` comes where another is needed. A link is closed when its session is over, or before
/// anything else is answered.
///
/// `Door` comes where the port can't be taken or a connection can't be accepted; `Limit` where no
/// generation is left, or no serial for a message that came; `Damaged` for a spool that can't be opened,
/// before anything is told. `Unreadable` names a queue file that can't be read any longer. `Disk` and
/// `Tell` come where the host failed, `NoMemory` where memory ran out.
pub fn listen<L: Link, H: Host, C: Clock, D: Door<Link = L>>(
    alloc: Global,
    host: &mut H,
    clock: &mut C,
    door: &mut D,
    params: Params,
    table: Table,
    port: u16,
    count: u32,
    rests: u64,
) -> Result<Listened, ListenError>
    requires range { IsInRange params }
    requires some { 1 ≤ count }
    // Where the host tells its files, they stand for an orderly book, or show a damage.
    requires spool { IsTrue H.tells → IsFitSpool (H.view host.old) }

    // How far it went, for each orderly book for which the host stood.
    ensures ends { Told H.tells H.view host.old host.new (λ u v. ForOrderly params table u (λ w b.
        ListenEnds w b port count (record {
          before = record { clock = C.given clock.old; door = D.view door.old };
          behind = record { clock = C.given clock.new; door = D.view door.new };
        }) u v result)) }
    ensures unfinished { (n : ℕ) → result ≡ Ok (Unfinished n)
        → (n ≡ rests) × CountsRests (D.view door.old) (D.view door.new) rests }
    // As many rests suffice as the links may answer `NotYet`.
    ensures few { (n : ℕ) → result ≡ Ok (Unfinished n) → AreTooFew rests (D.view door.old) }
    // A spool that shows a damage is found so, and nothing is changed; only a damage is called one.
    ensures damaged { Told H.tells H.view host.old host.new (λ u v. FindsDamage u v result) }
    ensures only_damaged { IsTrue H.tells → NamesOnlyDamage (H.view host.new) result }
    // Where the host tells its files, each queue file can be read.
    ensures readable { IsTrue H.tells → IfErr result (λ error. is_unreadable error ≡ false) }
    // Of every host: what a limit, or some names and files of the spool, say of it.
    ensures named { IfErr result IsListenRefusal }
    ensures cause { ListenCause (H.faults host.old) (H.faults host.new) result }
    ensures door { DoorCause (D.view door.old).door_faults (D.view door.new).door_faults result }
{
    let settings = intake_params(params);
    match begin_life(alloc, host, settings, table, Mode::Intake, 0) {
        Ok(engine) => {
            let life = Life {
                engine,
                given: 0,
                first: true,
            };
            listen_on(alloc, life, host, clock, door, port, count, rests)
        }
        Err(error) => Err(listen_error(error)),
    }
}
