//! `drain`: a life that delivers by SMTP.
ghost use Rattle.std.specs.Prelude.{◌≡◌, ◌≢◌, IsTrue, List, Option, ℕ, false, true};
ghost use Rattle.q_host.specs.View.{Told};
ghost use Rattle.q_drain.specs.Drained.{AreTooFew, CountsRests};
ghost use Rattle.q_replay.specs.ReplayEnds.{IsFitSpool};
ghost use Rattle.q_replay.specs.Spools.{Serves};
ghost use Rattle.q_top.specs.Named.{IsNamed};
ghost use Rattle.q_top.specs.Statuses.{is_unreadable};
ghost use Rattle.q_top.specs.Causes.{HasHostCause};
ghost use Rattle.q_top.specs.Lives.{DrainsSpool};
ghost use Rattle.q_words.specs.declared.request.Request.TheVariants.{Drain};

use crate::status::{Status, conf_status, delivery_status};
use q_conf::read_conf;
use q_host::Host;
use q_link::{Hops, Link};
use q_replay::deliver;
use q_stream::Clock;
use std::alloc::Global;

/// Reads the files of conf, and delivers the messages of the spool.
pub(crate) fn drain_spool<L: Link, H: Host, C: Clock, N: Hops<Link = L>>(
    alloc: Global,
    host: &mut H,
    clock: &mut C,
    hops: &mut N,
    rests: u64,
) -> Status
    requires spool { IsTrue H.tells → IsFitSpool (H.view host.old) }
    ensures drains { Told H.tells H.view host.old host.new (λ u v. DrainsSpool (record {
      before = record { clock = C.given clock.old; hops = N.view hops.old };
      behind = record { clock = C.given clock.new; hops = N.view hops.new };
    }) u v result) }
    ensures serves { Told H.tells H.view host.old host.new (Serves true) }
    ensures readable { IsTrue H.tells → is_unreadable result ≡ false }
    ensures named { (text : Option (List ℕ)) → IsNamed (λ r. r ≡ Drain rests) text result }
    ensures host { HasHostCause (H.faults host.old) (H.faults host.new) result }
    ensures no_source { result ≢ Status.Source }
    ensures no_usage { result ≢ Status.Usage }
    ensures no_door { result ≢ Status.Door }
    ensures unfinished { (n : ℕ) → result ≡ Status.Unfinished n
        → (n ≡ rests) × CountsRests (N.view hops.old) (N.view hops.new) rests }
    ensures few { (n : ℕ) → result ≡ Status.Unfinished n → AreTooFew n (N.view hops.old) }
{
    match read_conf(alloc, host) {
        Ok(conf) => delivery_status(deliver(
            alloc,
            host,
            clock,
            hops,
            conf.params,
            conf.table,
            rests,
        )),
        Err(error) => conf_status(error),
    }
}
