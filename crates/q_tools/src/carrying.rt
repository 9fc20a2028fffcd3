//! A tool, from its life to its last line.
ghost use Rattle.std.specs.Prelude.{◌≤◌, ◌≡◌, false, IfErr, IsTrue};
ghost use Rattle.q_host.specs.View.{Told};
ghost use Rattle.q_replay.specs.ReplayEnds.{ForOrderly, IsFitSpool};
ghost use Rattle.q_settings.specs.Ranges.{IsInRange};
ghost use Rattle.q_tools.specs.Refusals.{CarryCause, FindsDamage, is_unreadable, IsToolRefusal, NamesOnlyDamage};
ghost use Rattle.q_tools.specs.Tasks.{IsTask};
ghost use Rattle.q_tools.specs.ToolEnds.{ToolEnds};

use crate::error::ToolError;
use crate::life::run_life;
use crate::resting::work_at_rest;
use crate::task::Task;
use q_host::Host;
use q_model::Moment;
use q_settings::Params;
use q_transport::Table;
use std::alloc::Global;

/// Runs an intake life on the spool of a host, in which this moment comes and which then ends, and does
/// the task on the spool that it left: messages are moved or given up, and of each the line `WORD ID` is
/// told behind what the disk holds of it.
///
/// `Life` comes with `Limit` where no generation is left, with `Damaged` for a spool that can't be
/// opened, before anything is told, and with what else ends a life early; then no message was acted on.
/// `Act` comes behind the life's end: with `Absent` exactly where the task names a message that stands
/// nowhere where the act takes messages from, or, to be given up, isn't in a queue file; the others that it
/// names had their turn then. `Disk` and `Tell` come where the host failed, `NoMemory` where memory ran out;
/// what was told before stands.
/// It is an error to ask for `Expire` with all messages.
pub fn carry<H: Host>(
    alloc: Global,
    host: &mut H,
    params: Params,
    table: Table,
    moment: Moment,
    task: &Task,
) -> Result<(), ToolError>
    requires range { IsInRange params }
    requires moment { moment ≤ 999990000000 }
    requires task { IsTask task.now }
    // Where the host tells its files, they stand for an orderly book, or show a damage.
    requires spool { IsTrue H.tells → IsFitSpool (H.view host.old) }

    // How far it went, for each orderly book for which the host stood.
    ensures ends { Told H.tells H.view host.old host.new (λ u v. ForOrderly params table u (λ w b.
        ToolEnds w b moment task.now u v result)) }
    // A spool that shows a damage is found so, and nothing is changed; only a damage is called one.
    ensures damaged { Told H.tells H.view host.old host.new (λ u v. FindsDamage u v result) }
    ensures only_damaged { IsTrue H.tells → NamesOnlyDamage (H.view host.new) result }
    // Where the host tells its files, each queue file can be read.
    ensures readable { IsTrue H.tells → IfErr result (λ error. is_unreadable error ≡ false) }
    // Of every host: what a limit, or some names and files of the spool, say of it.
    ensures named { IfErr result (IsToolRefusal task.now) }
    ensures cause { CarryCause (H.faults host.old) (H.faults host.new) result }
{
    match run_life(alloc, host, params, table, moment) {
        Ok(()) => {}
        Err(error) => return Err(ToolError::Life(error)),
    }
    match work_at_rest(alloc, host, task) {
        Ok(()) => Ok(()),
        Err(error) => Err(ToolError::Act(error)),
    }
}
