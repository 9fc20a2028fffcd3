//! `listen`: a life that takes mail by SMTP.
ghost use Rattle.std.specs.Prelude.{◌≡◌, ◌≢◌, ◌≤◌, IsTrue, List, Option, ℕ, false, true};
ghost use Rattle.q_host.specs.View.{Told};
ghost use Rattle.q_listen.specs.ListenEnds.{AreTooFew, CountsRests};
ghost use Rattle.q_replay.specs.ReplayEnds.{IsFitSpool};
ghost use Rattle.q_replay.specs.Spools.{Serves};
ghost use Rattle.q_top.specs.Named.{IsNamed};
ghost use Rattle.q_top.specs.Statuses.{is_unreadable};
ghost use Rattle.q_top.specs.Causes.{HasDoorCause, HasHostCause};
ghost use Rattle.q_top.specs.Lives.{ListensOnSpool};
ghost use Rattle.q_words.specs.declared.request.Request.TheVariants.{Listen};

use crate::status::{Status, conf_status, listen_status};
use q_conf::read_conf;
use q_door::Door;
use q_host::Host;
use q_link::Link;
use q_listen::listen;
use q_stream::Clock;
use std::alloc::Global;

/// Reads the files of conf, and takes mail at a port, over so many connections one behind the other.
pub(crate) fn listen_spool<L: Link, H: Host, C: Clock, D: Door<Link = L>>(
    alloc: Global,
    host: &mut H,
    clock: &mut C,
    door: &mut D,
    port: u16,
    count: u32,
    rests: u64,
) -> Status
    requires some { 1 ≤ count }
    requires spool { IsTrue H.tells → IsFitSpool (H.view host.old) }
    ensures listens { Told H.tells H.view host.old host.new (λ u v. ListensOnSpool port count (record {
      before = record { clock = C.given clock.old; door = D.view door.old };
      behind = record { clock = C.given clock.new; door = D.view door.new };
    }) u v result) }
    ensures serves { Told H.tells H.view host.old host.new (Serves true) }
    ensures readable { IsTrue H.tells → is_unreadable result ≡ false }
    ensures named { (text : Option (List ℕ)) → IsNamed (λ r. r ≡ Listen port count rests) text result }
    ensures host { HasHostCause (H.faults host.old) (H.faults host.new) result }
    ensures door { HasDoorCause (D.view door.old).door_faults (D.view door.new).door_faults result }
    ensures no_source { result ≢ Status.Source }
    ensures no_usage { result ≢ Status.Usage }
    ensures unfinished { (n : ℕ) → result ≡ Status.Unfinished n
        → (n ≡ rests) × CountsRests (D.view door.old) (D.view door.new) rests }
    ensures few { (n : ℕ) → result ≡ Status.Unfinished n → AreTooFew n (D.view door.old) }
{
    match read_conf(alloc, host) {
        Ok(conf) => listen_status(listen(
            alloc,
            host,
            clock,
            door,
            conf.params,
            conf.table,
            port,
            count,
            rests,
        )),
        Err(error) => conf_status(error),
    }
}
