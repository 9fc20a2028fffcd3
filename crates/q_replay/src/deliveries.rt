//! One life, whose messages are delivered by SMTP.
ghost use Rattle.std.specs.Prelude.{◌≡◌, ◌≢◌, IsErrOf, IsTrue, Ok, ℕ, IfErr, false};
ghost use Rattle.q_drain.specs.Drained.{AreTooFew, CountsRests};
ghost use Rattle.q_host.specs.View.{Told};
ghost use Rattle.q_settings.specs.Ranges.{IsInRange};
ghost use Rattle.q_replay.specs.DamagedSpools.{FindsDamage, NamesOnlyDamage};
ghost use Rattle.q_replay.specs.Deliveries.{DeliveryEnds};
ghost use Rattle.q_replay.specs.Named.{IsDeliveryRefusal};
ghost use Rattle.q_replay.specs.ReplayEnds.{ForOrderly, IsFitSpool};
ghost use Rattle.q_replay.specs.Takings.{is_unreadable, ReplayCause};
ghost use Rattle.q_replay.specs.declared.deliveries.Delivered.TheVariants.{Unfinished};

use crate::error::{ReplayError, replay_error};
use crate::taking::{begin_life, end};
use q_drain::{Drained, drain};
use q_host::Host;
use q_link::{Hops, Link};
use q_model::Mode;
use q_settings::Params;
use q_stream::Clock;
use q_transport::Table;
use std::alloc::Global;

/// How a life ends whose messages are delivered.
#[derive(Clone, Copy, Debug, PartialEq, Eq)]
pub enum Delivered {
    /// No delivery is in flight, and the life has ended.
    All,
    /// So many rests were given, and another is needed. The life hasn't ended.
    Unfinished { rests: u64 },
}

/// Begins a life on the spool of a host, delivers its messages by SMTP (RFC 5321) until no delivery is
/// in flight, and ends it. Each entry is told after the disk holds what it says.
///
/// `Limit` comes where no generation is left, and where a session is over and the life has begun 2^48
/// deliveries; `Damaged` for a spool that can't be opened, before anything is told. `Unreadable` names
/// a queue file that can't be read any longer. `Disk` and `Tell` come where the host failed, `NoMemory`
/// where memory ran out.
pub fn deliver<L: Link, H: Host, C: Clock, N: Hops<Link = L>>(
    alloc: Global,
    host: &mut H,
    clock: &mut C,
    hops: &mut N,
    params: Params,
    table: Table,
    rests: u64,
) -> Result<Delivered, ReplayError>
    requires range { IsInRange params }
    // Where the host tells its files, they stand for an orderly book, or show a damage.
    requires spool { IsTrue H.tells → IsFitSpool (H.view host.old) }

    // How far it went, for each orderly book for which the host stood.
    ensures ends { Told H.tells H.view host.old host.new (λ u v. ForOrderly params table u (λ w b.
        DeliveryEnds w b (record {
          before = record { clock = C.given clock.old; hops = N.view hops.old };
          behind = record { clock = C.given clock.new; hops = N.view hops.new };
        }) u v result)) }
    ensures unfinished { (n : ℕ) → result ≡ Ok (Unfinished n)
        → (n ≡ rests) × CountsRests (N.view hops.old) (N.view hops.new) rests }
    ensures few { (n : ℕ) → result ≡ Ok (Unfinished n) → AreTooFew rests (N.view hops.old) }
    ensures no_source { IsErrOf result ReplayError.Source → ⊥ }
    // A spool that shows a damage is found so, and nothing is changed; only a damage is called one.
    ensures damaged { Told H.tells H.view host.old host.new (λ u v. FindsDamage u v result) }
    ensures only_damaged { IsTrue H.tells → NamesOnlyDamage (H.view host.new) result }
    // Where the host tells its files, each queue file can be read.
    ensures readable { IsTrue H.tells → IfErr result (λ error. is_unreadable error ≡ false) }
    // Of every host: what a limit, or some names and files of the spool, say of it.
    ensures named { IfErr result IsDeliveryRefusal }
    ensures cause { ReplayCause (H.faults host.old) (H.faults host.new) result }
{
    let begun = begin_life(alloc, host, params, table, Mode::Deliver, 0)?;
    match drain(alloc, begun, host, clock, hops, rests) {
        Ok(Drained::Quiet { engine }) => {
            end(alloc, host, engine, 0)?;
            Ok(Delivered::All)
        }
        Ok(Drained::Unfinished { rests }) => Ok(Delivered::Unfinished { rests }),
        Err(error) => Err(replay_error(0, error)),
    }
}
