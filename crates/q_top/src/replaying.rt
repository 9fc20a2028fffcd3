//! `replay`: the lives of an event list.
ghost use Rattle.std.specs.Prelude.{◌≢◌, IsTrue, ℕ, ◌≡◌, false, true};
ghost use Rattle.q_host.specs.View.{Told};
ghost use Rattle.q_replay.specs.ReplayEnds.{IsFitSpool};
ghost use Rattle.q_replay.specs.Spools.{Serves};
ghost use Rattle.q_top.specs.Named.{IsNamed};
ghost use Rattle.q_top.specs.Statuses.{is_unreadable};
ghost use Rattle.q_top.specs.Causes.{HasHostCause, HasSourceCause};
ghost use Rattle.q_top.specs.Courses.{Texts};
ghost use Rattle.q_top.specs.Lives.{Replays};
ghost use Rattle.q_words.specs.declared.request.Request.TheVariants.{Replay};

use crate::status::{Status, conf_status, status_of};
use q_conf::read_conf;
use q_host::Host;
use q_replay::replay;
use q_stream::Source;
use std::alloc::Global;

/// Reads the files of conf, and replays the event list of the source on the spool.
pub(crate) fn replay_list<H: Host, S: Source>(alloc: Global, source: &mut S, host: &mut H) -> Status
    requires spool { IsTrue H.tells → IsFitSpool (H.view host.old) }
    ensures replays { Told H.tells H.view host.old host.new (λ u v. Replays
        (record { before = S.left source.old; after = S.left source.new }) u v result) }
    ensures serves { Told H.tells H.view host.old host.new (Serves true) }
    ensures readable { IsTrue H.tells → is_unreadable result ≡ false }
    ensures named { IsNamed (λ r. r ≡ Replay) (S.left source.old) result }
    ensures host { HasHostCause (H.faults host.old) (H.faults host.new) result }
    ensures source { HasSourceCause (S.faults source.old) (S.faults source.new) result }
    ensures no_usage { result ≢ Status.Usage }
    ensures no_door { result ≢ Status.Door }
    ensures no_rests { (n : ℕ) → result ≢ Status.Unfinished n }
{
    match read_conf(alloc, host) {
        Ok(conf) => status_of(replay(alloc, source, host, conf.params, conf.table)),
        Err(error) => conf_status(error),
    }
}
