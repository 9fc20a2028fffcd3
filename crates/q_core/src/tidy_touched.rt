//! What holds after each entry, where it is known what was touched.
ghost use Rattle.std.specs.Prelude.{◌≡◌, ◌<◌, length, map, true};
ghost use Rattle.std.specs.List.{enumerate_from};
ghost use Rattle.q_core.specs.Ties.{ArePeersTied};
ghost use Rattle.q_core.specs.Tidied.{tidied_jobs, tidied_line};
ghost use Rattle.q_pool.specs.Kept.{heads};
ghost use Rattle.q_core.specs.Touched.{DoJobsStay, jobs_stay};
ghost use Rattle.q_core.specs.declared.touched.Touched.TheVariants.{One};
ghost use Rattle.q_held.specs.Held.{rows_of};
ghost use Rattle.q_turns.specs.Turns.{line_at, with_line};

use crate::tidy::{leave_line, stays, tidy_lines};
use crate::touched::Touched;
use q_held::Rows;
use q_model::Id;
use q_pool::Pool;
use q_schedule::Schedule;

/// Takes the message's job out of the line, where it has nothing left.
fn tidy_job(schedule: &mut Schedule, id: Id, admitted: &Pool, waiting: &Rows, transport: usize)
    requires there { transport < length schedule.old.lines }
    requires tied { ArePeersTied schedule.old.peers (rows_of waiting.now.items) }
    requires others { jobs_stay (One id) (heads admitted.now.items) (rows_of waiting.now.items)
        transport (line_at transport schedule.old.lines) ≡ true }
    ensures { schedule.new ≡ record schedule.old {
      lines = with_line transport (tidied_jobs
          (heads admitted.now.items) (rows_of waiting.now.items) transport) schedule.old.lines;
    } }
{
    if !stays(schedule, admitted, waiting, id, transport) {
        leave_line(schedule, id, waiting, transport);
    }
}

/// Takes the message's jobs out of the lines, where they have nothing left.
fn tidy_message(schedule: &mut Schedule, id: Id, admitted: &Pool, waiting: &Rows)
    requires tied { ArePeersTied schedule.old.peers (rows_of waiting.now.items) }
    requires others { DoJobsStay (One id) (heads admitted.now.items) (rows_of waiting.now.items)
        schedule.old.lines }
    ensures { schedule.new ≡ record schedule.old {
      lines = map (tidied_line (heads admitted.now.items)
          (rows_of waiting.now.items)) (enumerate_from 0 schedule.old.lines);
    } }
{
    for transport in 0..schedule.transports() {
        tidy_job(schedule, id, admitted, waiting, transport);
    }
}

/// Takes the jobs that have nothing left out of the lines.
pub(crate) fn tidy_touched_lines(
    schedule: &mut Schedule,
    touched: &Touched<Id>,
    admitted: &Pool,
    waiting: &Rows,
)
    requires tied { ArePeersTied schedule.old.peers (rows_of waiting.now.items) }
    requires others { DoJobsStay touched.now (heads admitted.now.items)
        (rows_of waiting.now.items) schedule.old.lines }
    ensures { schedule.new ≡ record schedule.old {
      lines = map (tidied_line (heads admitted.now.items)
          (rows_of waiting.now.items)) (enumerate_from 0 schedule.old.lines);
    } }
{
    match touched {
        Touched::Nothing => {}
        Touched::One(id) => tidy_message(schedule, *id, admitted, waiting),
        Touched::Everything => tidy_lines(schedule, admitted, waiting),
    }
}
