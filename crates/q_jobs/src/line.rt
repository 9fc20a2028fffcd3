//! The line.
ghost use Rattle.std.specs.List.{AllByRecursion};
ghost use Rattle.std.specs.Prelude.{◌≡◌, ◌<◌, ◌≤◌, ◌-◌, ◌++◌, ◌^◌, [], ◌∷◌, false, filter, find, IfOk, length, map, None};
ghost use Rattle.std.specs.Option.{option_copied};
ghost use Rattle.q_model.specs.declared.id.Id.{Id};
ghost use Rattle.q_model.specs.Ids.{id_eq};
ghost use Rattle.q_jobs.specs.Jobs.{account_in, AreOfOthers, AreRising, behind_jobs, first_job, fresh_job, is_job_of, is_job_of_another, moved_job, rank_of};

use crate::job::Job;
use q_keyed::Keyed;
use q_model::Id;
use q_ranks::Ranked;
use std::alloc::{AllocError, Global};
use std::marker::Model;

/// The jobs of a transport in their order, each with a rank. A contract sees them as their list,
/// beside that of their ranks.
#[derive(Debug, Drop)]
pub struct Line {
    jobs: Keyed<Job>,
    /// The numbers of the jobs in the same order.
    ranks: Ranked,
}

impl Model for Line {
    ghost use Rattle.q_jobs.specs.Jobs.{Jobs};
    ghost use Rattle.q_jobs.specs.Sound.{IsSound, numbers_of, ranks_at};
    ghost use Rattle.q_keyed.specs.Numbered.{values_of};

    ghost Value = { Jobs };

    ghost view = { λ a. record {
      jobs = values_of a.jobs.items;
      room = a.jobs.room;
      ranks = ranks_at a.ranks.ranks (numbers_of a.jobs.items);
    } };

    ghost invariant = { λ a. IsSound a.jobs a.ranks };
}

impl Line {
    /// No job, and room for so many. An error says that memory is wanting.
    pub fn new(alloc: Global, room: u32) -> Result<Line, AllocError>
        requires some { 1 ≤ room }
        requires few { room < 2 ^ 30 }
        ensures { IfOk result (λ made. made ≡ record { jobs = []; room = room; ranks = [] }) }
    {
        let jobs = Keyed::new(alloc, room)?;
        let ranks = Ranked::new(alloc, room)?;
        Ok(Line { jobs, ranks })
    }

    /// No message has two jobs, there are no more than have room, and the ranks of all rise along
    /// the line, whatever was called: this does nothing, and is there for callers whose proofs want
    /// to know it.
    pub fn stand_apart(&self)
        ensures apart { AreOfOthers self.now.jobs }
        ensures within { length self.now.jobs ≤ self.now.room }
        ensures each { length self.now.ranks ≡ length self.now.jobs }
        ensures rise { AreRising self.now.ranks }
        ensures low { AllByRecursion (λ rank. rank < 2 ^ 63) self.now.ranks }
    {
        self.jobs.stand_apart();
        self.ranks.stand_ranked();
    }

    /// How many jobs more have room.
    pub fn spare(&self) -> u32
        ensures { result ≡ self.now.room - length self.now.jobs }
    {
        self.jobs.spare()
    }

    /// The job of a message.
    pub fn job(&self, id: Id) -> Option<&Job>
        ensures { option_copied result ≡ find (is_job_of id) self.now.jobs }
    {
        let number = self.jobs.find(&id)?;
        self.jobs.get(number)
    }

    /// The rank of a message's job. Of two jobs the one that stands first has the lower rank, and
    /// all are below 2^63, so greater numbers are free for marks of a caller's own.
    pub fn rank(&self, id: Id) -> Option<u64>
        ensures { result ≡ rank_of id self.now.jobs self.now.ranks }
    {
        let number = self.jobs.find(&id)?;
        Some(self.ranks.rank(number))
    }

    /// The first job.
    pub fn first(&self) -> Option<&Job>
        ensures { option_copied result ≡ first_job self.now.jobs }
    {
        let number = self.jobs.first()?;
        self.jobs.get(number)
    }

    /// The job right behind that of a message.
    pub fn behind(&self, id: Id) -> Option<&Job>
        ensures { option_copied result ≡ first_job (behind_jobs id self.now.jobs) }
    {
        let number = self.jobs.find(&id)?;
        let next = self.jobs.next(number)?;
        self.jobs.get(next)
    }

    /// A message joins the end of the line, with nothing in its account. It says whether all jobs
    /// were ranked anew; else the others keep their ranks.
    pub fn join(&mut self, id: Id) -> bool
        requires room { length self.old.jobs < self.old.room }
        requires absent { find (is_job_of id) self.old.jobs ≡ None }
        ensures line { self.new ≡ record self.old
            { jobs = self.old.jobs ++ fresh_job id ∷ []; ranks = self.new.ranks } }
        ensures kept { result ≡ false → (other : Id) → id_eq other id ≡ false
            → rank_of other self.new.jobs self.new.ranks
            ≡ rank_of other self.old.jobs self.old.ranks }
    {
        let job = Job {
            id,
            starts: 0,
            charged: 0,
        };
        let number = self.jobs.push(job);
        self.ranks.push(number)
    }

    /// Puts another account in the place of that of the same message.
    pub fn put(&mut self, job: Job)
        ensures { self.new ≡ record self.old { jobs = map (account_in job) self.old.jobs } }
    {
        if let Some(number) = self.jobs.find(&job.id) {
            self.jobs.put(number, job);
        }
    }

    /// The message's job leaves the line. The others keep their ranks.
    pub fn leave(&mut self, id: Id)
        ensures line { self.new ≡ record self.old
            { jobs = filter (is_job_of_another id) self.old.jobs; ranks = self.new.ranks } }
        ensures kept { (other : Id) → id_eq other id ≡ false
            → rank_of other self.new.jobs self.new.ranks
            ≡ rank_of other self.old.jobs self.old.ranks }
    {
        self.ranks.stand_ranked();
        if let Some(number) = self.jobs.find(&id) {
            let _job = self.jobs.remove(number);
            self.ranks.remove(number);
        }
    }

    /// The job of the child goes just before that of the parent. Where the parent has none, or is
    /// the child, it leaves the line. It says whether all jobs were ranked anew; else the others
    /// keep their ranks.
    pub fn put_before(&mut self, child: Id, parent: Id) -> bool
        ensures line { self.new ≡ record self.old
            { jobs = moved_job child parent self.old.jobs; ranks = self.new.ranks } }
        ensures kept { result ≡ false → (other : Id) → id_eq other child ≡ false
            → rank_of other self.new.jobs self.new.ranks
            ≡ rank_of other self.old.jobs self.old.ranks }
    {
        self.ranks.stand_ranked();
        let Some(from) = self.jobs.find(&child) else {
            return false;
        };
        let Some(job) = self.jobs.remove(from) else {
            return false;
        };
        self.ranks.remove(from);
        let Some(at) = self.jobs.find(&parent) else {
            return false;
        };
        let number = self.jobs.insert_before(job, at);
        self.ranks.insert_before(number, at)
    }
}
