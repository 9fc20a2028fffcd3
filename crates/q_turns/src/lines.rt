//! Jobs join lines, get other accounts, go before others, and leave.
ghost use Rattle.std.specs.Prelude.{◌≡◌, ◌<◌, ◌++◌, ◌∷◌, [], false, filter, find, length, map, None, true};
ghost use Rattle.std.specs.List.{list_any};
ghost use Rattle.q_jobs.specs.Jobs.{account_in, fresh_job, is_job_of, is_job_of_another, moved_job};
ghost use Rattle.q_model.specs.Ids.{id_eq};
ghost use Rattle.q_rounds.specs.Rounds.{is_peer_for};
ghost use Rattle.q_turns.specs.Turns.{has_job, line_at, with_line};

use crate::heading::rank_at;
use crate::moving::{move_job, place_anew};
use crate::turns::Turns;
use q_jobs::Job;
use q_model::Id;

impl Turns {
    /// A message joins the end of the line, with nothing in its account.
    pub fn join(&mut self, transport: usize, id: Id)
        requires there { transport < length self.old.lines }
        requires room { length (line_at transport self.old.lines) < self.old.line_room }
        requires absent { find (is_job_of id) (line_at transport self.old.lines) ≡ None }
        ensures { self.new ≡ record self.old
            { lines = with_line transport (λ jobs. jobs ++ fresh_job id ∷ []) self.old.lines } }
    {
        self.lanes.stand_apart();
        let line = &mut self.lines[transport];
        let anew = line.join(id);
        line.stand_apart();
        if anew {
            place_anew(
                &mut self.heads,
                &self.lines,
                &self.lanes,
                &self.peers,
                transport,
            );
        }
    }

    /// Puts another account in the place of that of the same message.
    pub fn put(&mut self, transport: usize, job: Job)
        requires there { transport < length self.old.lines }
        ensures { self.new ≡ record self.old
            { lines = with_line transport (map (account_in job)) self.old.lines } }
    {
        let line = &mut self.lines[transport];
        line.put(job);
        line.stand_apart();
    }

    /// The message's job leaves the line. No row of the message waits there.
    pub fn leave(&mut self, transport: usize, id: Id)
        requires there { transport < length self.old.lines }
        requires done { list_any (is_peer_for id transport) self.old.peers ≡ false }
        ensures { self.new ≡ record self.old
            { lines = with_line transport (filter (is_job_of_another id)) self.old.lines } }
    {
        let line = &mut self.lines[transport];
        line.leave(id);
        line.stand_apart();
    }

    /// The job of the child goes just before that of the parent, which has one.
    pub fn put_before(&mut self, transport: usize, child: Id, parent: Id)
        requires there { transport < length self.old.lines }
        requires other { id_eq child parent ≡ false }
        requires parent { has_job self.old.lines transport parent ≡ true }
        ensures { self.new ≡ record self.old
            { lines = with_line transport (moved_job child parent) self.old.lines } }
    {
        self.lanes.stand_apart();
        let from = rank_at(&self.lines, transport, child);
        let line = &mut self.lines[transport];
        let anew = line.put_before(child, parent);
        line.stand_apart();
        if anew {
            place_anew(
                &mut self.heads,
                &self.lines,
                &self.lanes,
                &self.peers,
                transport,
            );
            return;
        }
        if let Some(from) = from {
            move_job(
                &mut self.heads,
                &self.lines,
                &self.lanes,
                &self.peers,
                &self.messages,
                child,
                transport,
                from,
            );
        }
    }
}
