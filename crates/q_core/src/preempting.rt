//! A job goes before the current one (SCHEDULER_README, "Preemptive scheduling").
ghost use Rattle.q_jobs.specs.Jobs.{changed_job};
ghost use Rattle.std.specs.Prelude.{◌≡◌, false, IsTrue, map, true};
ghost use Rattle.std.specs.List.{enumerate_from};
ghost use Rattle.q_core.specs.Agrees.{FollowsRule};
ghost use Rattle.q_model.specs.Ids.{id_eq};
ghost use Rattle.q_turns.specs.Turns.{has_job, with_line};
ghost use Rattle.q_core.specs.Sending.{IsPreempted, preempted_line, with_charge};
ghost use Rattle.q_core.specs.Changes.{is_looked_at};
ghost use Rattle.q_model.specs.Next.{start_rule};

use crate::state::Core;
use q_jobs::Job;
use q_model::{Entry, Id};
use q_schedule::Schedule;

/// The account, charged with the need of a job that preempts this one, which has so much left. It
/// holds that: it is no more than this one has begun and has left.
fn with_charge(job: Job, need: u64, left: u64) -> Job
    ensures { result ≡ with_charge need left job }
{
    let most = job.starts.saturating_add(left);
    Job {
        charged: job.charged.saturating_add(need).min(most),
        ..job
    }
}

/// Charges the need to the message's job.
fn charge(schedule: &mut Schedule, transport: usize, id: Id, need: u64, left: u64)
    ensures { schedule.new ≡ record schedule.old {
      lines = with_line transport
          (map (changed_job id (with_charge need left))) schedule.old.lines;
    } }
{
    schedule.stand_apart();
    if let Some(job) = schedule.job(transport, id) {
        let charged = with_charge(*job, need, left);
        schedule.put(transport, charged);
    }
}

/// The child goes before the parent at the transport, and its need is charged to the parent.
fn preempt(schedule: &mut Schedule, child: Id, parent: Id, transport: u8, need: u64, left: u64)
    requires other { id_eq child parent ≡ false }
    requires parent { has_job schedule.old.lines transport parent ≡ true }
    ensures { schedule.new ≡ record schedule.old {
      lines = map
          (preempted_line child parent transport need left) (enumerate_from 0 schedule.old.lines);
    } }
{
    let at = usize::from(transport);
    charge(schedule, at, parent, need, left);
    schedule.put_before(at, child, parent);
}

impl Core {
    fn move_job(&mut self, child: Id, parent: Id, transport: u8, need: u64, left: u64)
        requires other { id_eq child parent ≡ false }
        requires parent { has_job self.old.lines transport parent ≡ true }
        ensures { IsPreempted self.old self.new child parent transport need left }
    {
        preempt(&mut self.schedule, child, parent, transport, need, left);
    }

    /// The child goes before the parent, the current job of the transport, at this need.
    pub(crate) fn preempt(&mut self, child: Id, parent: Id, transport: u8, need: u32)
        requires seen { IsTrue (is_looked_at self.old) }
        requires other { id_eq child parent ≡ false }
        requires parent { has_job self.old.lines transport parent ≡ true }
        ensures exact { FollowsRule self.old self.new start_rule (Entry.Preempt child parent transport need) }
        ensures timed { self.new.timed ≡ self.old.timed }
    {
        let left = self.job_left(parent, transport);
        self.move_job(child, parent, transport, u64::from(need), left);
        self.tidy();
    }
}
