//! What a transport does next: a delivery of the current job begins, or another job preempts it
//! (SCHEDULER_README, "Preemptive scheduling").
ghost use Rattle.q_jobs.specs.Jobs.{AreOfOthers, behind_jobs, first_job};
ghost use Rattle.std.specs.Prelude.{Some, ◌≡◌, ◌≤◌, ◌<◌, ◌+◌, ◌^◌};
ghost use Rattle.std.specs.Option.{option_copied};
ghost use Rattle.q_core.specs.Choosing.{best_in, choice_in, choices_from, choose_in, current_in, job_left_in, jobs_at, need_in, next_start_in};

use crate::decision::Decision;
use crate::paying::most_need;
use crate::rows::waiting_for;
use crate::state::Core;
use q_jobs::Job;
use q_model::{Id, MOST_DELIVERIES};
use q_pool::Slot;

impl Core {
    /// The deliveries that the message has left at the transport, where each unread recipient
    /// counts as one.
    pub(crate) fn job_left(&self, id: Id, transport: u8) -> u64
        ensures value { result ≡ job_left_in self.now transport id }
        ensures few { result ≤ 2 ^ 63 + 2 ^ 32 }
    {
        let at = usize::from(transport);
        waiting_for(&self.schedule, &self.waiting, id, at) + u64::from(self.unread(id))
    }

    /// The need of a message that preempts: what it has left at the transport. That is no more
    /// than its recipients, of which each is unread, or stands in one row at most.
    fn need(&self, slot: &Slot, transport: u8) -> u32
        ensures { result ≡ need_in self.now transport slot.now }
    {
        let most = u64::from(slot.recipients);
        self.job_left(slot.id, transport).min(most) as u32
    }

    /// The first job of the transport; none where it has no line.
    pub fn first_job(&self, transport: u8) -> Option<&Job>
        ensures { option_copied result ≡ first_job (jobs_at self.now transport) }
    {
        self.schedule.first(usize::from(transport))
    }

    /// The job right behind that of a message at the transport.
    pub fn job_behind(&self, transport: u8, id: Id) -> Option<&Job>
        ensures { option_copied result ≡ first_job (behind_jobs id (jobs_at self.now transport)) }
    {
        self.schedule.behind(usize::from(transport), id)
    }

    /// The first job in the line that may start something.
    fn current(&self, transport: u8) -> Option<&Job>
        ensures { option_copied result ≡ current_in self.now transport }
    {
        if !self.has_process(transport) {
            return None;
        }
        self.schedule.stand_apart();
        self.schedule.current(usize::from(transport), &self.sites)
    }

    /// No message has two jobs in the line of a transport: this does nothing, and is there for
    /// proofs that need it.
    pub(crate) fn stand_apart(&self, transport: u8)
        ensures { AreOfOthers (jobs_at self.now transport) }
    {
        self.schedule.stand_apart();
    }

    /// The message that preempts the current job; among equals the first admitted. Each that can
    /// start, but the current, stands behind it.
    fn best(&self, parent: &Job, transport: u8) -> Option<Slot>
        requires { current_in self.now transport ≡ Some parent.now }
        ensures { result ≡ best_in self.now transport
            (behind_jobs parent.now.id (jobs_at self.now transport)) parent.now }
    {
        self.stand_apart(transport);
        self.schedule.stand_apart();
        self.admitted.stand_apart();
        self.waiting.stand_apart();
        let left = self.job_left(parent.id, transport);
        let most = most_need(&self.params, parent, left)?;
        let now = self.clock.seconds;
        let child = self
            .schedule
            .best(transport, most, now, parent.id, &self.sites)?;
        self.slot(child).copied()
    }

    /// What the current job of a transport leads to.
    fn choose(&self, parent: Job, transport: u8) -> Option<Decision>
        requires starts { self.now.starts < 2 ^ 48 }
        requires current { current_in self.now transport ≡ Some parent }
        ensures { result ≡ choose_in self.now transport parent }
    {
        match self.best(&parent, transport) {
            Some(child) => Some(Decision::Preempt {
                child: child.id,
                parent: parent.id,
                transport,
                need: self.need(&child, transport),
            }),
            None => self.start(parent.id, transport),
        }
    }

    fn choice(&self, transport: u8) -> Option<Decision>
        requires { self.now.starts < 2 ^ 48 }
        ensures { result ≡ choice_in self.now transport }
    {
        match self.current(transport) {
            Some(parent) => self.choose(*parent, transport),
            None => None,
        }
    }

    /// The choice of the first transport that has one.
    fn first_choice(&self) -> Option<Decision>
        requires { self.now.starts < 2 ^ 48 }
        ensures { result ≡ choices_from self.now 0 self.now.transports }
    {
        for transport in 0..self.transports {
            if let Some(decision) = self.choice(transport) {
                return Some(decision);
            }
        }
        None
    }

    /// The choice, while the life has begun fewer than 2^48 deliveries.
    pub(crate) fn next_start(&self) -> Option<Decision>
        ensures { result ≡ next_start_in self.now }
    {
        if self.starts < MOST_DELIVERIES {
            self.first_choice()
        } else {
            None
        }
    }
}
