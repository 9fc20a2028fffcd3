//! The life of a tool.
ghost use Rattle.std.specs.Prelude.{◌≤◌, ◌≡◌, false, IfErr, IsTrue};
ghost use Rattle.q_host.specs.View.{Told};
ghost use Rattle.q_replay.specs.DamagedSpools.{FindsDamage, NamesOnlyDamage};
ghost use Rattle.q_replay.specs.ReplayEnds.{ForOrderly, IsFitSpool};
ghost use Rattle.q_replay.specs.Takings.{is_unreadable, ReplayCause};
ghost use Rattle.q_settings.specs.Ranges.{IsInRange};
ghost use Rattle.q_tools.specs.Lives.{LifeEnds};
ghost use Rattle.q_tools.specs.Refusals.{IsLifeRefusal};

use q_host::Host;
use q_model::{Event, Mode, Moment};
use q_replay::{ReplayError, begin_life, end, hear, intake_params};
use q_settings::Params;
use q_transport::Table;
use std::alloc::Global;

/// Runs an intake life on the spool of a host: it begins, this moment comes, and it ends.
pub(crate) fn run_life<H: Host>(
    alloc: Global,
    host: &mut H,
    params: Params,
    table: Table,
    moment: Moment,
) -> Result<(), ReplayError>
    requires range { IsInRange params }
    requires moment { moment ≤ 999990000000 }
    requires spool { IsTrue H.tells → IsFitSpool (H.view host.old) }
    ensures ends { Told H.tells H.view host.old host.new (λ u v. ForOrderly params table u (λ w b.
        LifeEnds w b moment u v result)) }
    ensures damaged { Told H.tells H.view host.old host.new (λ u v. FindsDamage u v result) }
    ensures only_damaged { IsTrue H.tells → NamesOnlyDamage (H.view host.new) result }
    ensures readable { IsTrue H.tells → IfErr result (λ error. is_unreadable error ≡ false) }
    ensures named { IfErr result IsLifeRefusal }
    ensures cause { ReplayCause (H.faults host.old) (H.faults host.new) result }
{
    let begun = begin_life(alloc, host, intake_params(params), table, Mode::Intake, 0)?;
    let timed = hear(alloc, host, begun, Event::At { moment }, 1)?;
    end(alloc, host, timed, 2)
}
