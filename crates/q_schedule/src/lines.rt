//! Jobs join lines, get other accounts, go before others, and leave.
ghost use Rattle.std.specs.Prelude.{◌≡◌, ◌<◌, ◌||◌, ◌==◌, ◌++◌, ◌∷◌, [], false, filter, find, length, map, None, true};
ghost use Rattle.std.specs.List.{list_any};
ghost use Rattle.q_jobs.specs.Jobs.{account_in, fresh_job, is_job_of, is_job_of_another, moved_job};
ghost use Rattle.q_model.specs.Ids.{id_eq};
ghost use Rattle.q_rounds.specs.Rounds.{is_peer_for};
ghost use Rattle.q_turns.specs.Filing.{is_fresh};
ghost use Rattle.q_turns.specs.Turns.{has_job, line_at, with_line};

use crate::schedule::Schedule;
use crate::stale::{touch, touch_where};
use q_jobs::Job;
use q_model::Id;
use q_turns::Turns;

/// Whether the message has a job at the transport that began no delivery.
pub(crate) fn is_fresh(turns: &Turns, transport: usize, id: Id) -> bool
    ensures { result ≡ is_fresh turns.now.lines transport id }
{
    match turns.job(transport, id) {
        Some(job) => job.starts == 0,
        None => false,
    }
}

/// Whether the account of a job that began no delivery, or of one that is to have begun none,
/// changes.
fn is_changed(turns: &Turns, transport: usize, job: &Job) -> bool
    ensures { result ≡ (is_fresh turns.now.lines transport job.now.id || (job.now.starts == 0)) }
{
    is_fresh(turns, transport, job.id) || job.starts == 0
}

impl Schedule {
    /// A message joins the end of the line, with nothing in its account.
    pub fn join(&mut self, transport: usize, id: Id)
        requires there { transport < length self.old.lines }
        requires room { length (line_at transport self.old.lines) < self.old.line_room }
        requires absent { find (is_job_of id) (line_at transport self.old.lines) ≡ None }
        ensures { self.new ≡ record self.old
            { lines = with_line transport (λ jobs. jobs ++ fresh_job id ∷ []) self.old.lines } }
    {
        touch(
            &self.turns,
            &self.messages,
            &mut self.candidates,
            &mut self.stale,
            id,
        );
        self.turns.join(transport, id);
    }

    /// Puts another account in the place of that of the same message.
    pub fn put(&mut self, transport: usize, job: Job)
        requires there { transport < length self.old.lines }
        ensures { self.new ≡ record self.old
            { lines = with_line transport (map (account_in job)) self.old.lines } }
    {
        let is_changed = is_changed(&self.turns, transport, &job);
        touch_where(
            &self.turns,
            &self.messages,
            &mut self.candidates,
            &mut self.stale,
            job.id,
            is_changed,
        );
        self.turns.put(transport, job);
    }

    /// The message's job leaves the line. No row of the message waits there.
    pub fn leave(&mut self, transport: usize, id: Id)
        requires there { transport < length self.old.lines }
        requires done { list_any (is_peer_for id transport) self.old.peers ≡ false }
        ensures { self.new ≡ record self.old
            { lines = with_line transport (filter (is_job_of_another id)) self.old.lines } }
    {
        touch(
            &self.turns,
            &self.messages,
            &mut self.candidates,
            &mut self.stale,
            id,
        );
        self.turns.leave(transport, id);
    }

    /// The job of the child goes just before that of the parent, which has one.
    pub fn put_before(&mut self, transport: usize, child: Id, parent: Id)
        requires there { transport < length self.old.lines }
        requires other { id_eq child parent ≡ false }
        requires parent { has_job self.old.lines transport parent ≡ true }
        ensures { self.new ≡ record self.old
            { lines = with_line transport (moved_job child parent) self.old.lines } }
    {
        touch(
            &self.turns,
            &self.messages,
            &mut self.candidates,
            &mut self.stale,
            child,
        );
        self.turns.put_before(transport, child, parent);
    }
}
