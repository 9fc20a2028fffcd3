//! A delivery starts.
ghost use Rattle.std.specs.Prelude.{◌≡◌, ◌<◌, IsSome, IsTrue, List, map, true, ℕ};
ghost use Rattle.std.specs.List.{enumerate_from, list_any};
ghost use Rattle.q_core.specs.Agrees.{FollowsRule};
ghost use Rattle.q_core.specs.Lists.{AtFirst};
ghost use Rattle.q_core.specs.Queries.{flight_in};
ghost use Rattle.q_core.specs.Sending.{started_line, with_start, is_for, IsStarted, IsSent, served_now};
ghost use Rattle.q_core.specs.Changes.{is_looked_at, with_served};
ghost use Rattle.q_core.specs.Rooms.{HasProcess};
ghost use Rattle.q_core.specs.Tidied.{tidied_served};
ghost use Rattle.q_model.specs.Next.{start_rule};

use crate::counting::begin_flight;
use crate::rows::{first_row, take_row};
use crate::state::Core;
use crate::touched::touch_message;
use q_jobs::Job;
use q_model::{Entry, Id, MOST_DELIVERIES, Site};
use q_schedule::Schedule;

/// The account with one delivery more; a life begins fewer than 2^48.
fn with_start(job: Job) -> Job
    ensures { result ≡ with_start job }
{
    if job.starts < MOST_DELIVERIES {
        Job {
            starts: job.starts + 1,
            ..job
        }
    } else {
        job
    }
}

/// Counts a delivery that the message starts at the transport.
fn count_start(schedule: &mut Schedule, id: Id, transport: u8)
    ensures { schedule.new ≡ record schedule.old {
      lines = map (started_line id transport)
          (enumerate_from 0 schedule.old.lines);
    } }
{
    let at = usize::from(transport);
    schedule.stand_apart();
    if let Some(job) = schedule.job(at, id) {
        let counted = with_start(*job);
        schedule.put(at, counted);
    }
}

impl Core {
    /// Whether the message has a row for the site.
    pub(crate) fn has_row_for(&self, id: Id, site: &Site) -> bool
        ensures { result ≡ list_any (is_for id site.now) self.now.waiting }
    {
        self.waiting.first_for(id, site).is_some()
    }

    /// Sends the message's first row for the site.
    fn send(&mut self, number: u64, id: Id, site: Site)
        requires there { list_any (is_for id site) self.old.waiting ≡ true }
        requires next { self.old.starts < number }
        requires process { HasProcess self.old site.transport }
        ensures sent { AtFirst (is_for id site) self.old.waiting
            (IsSent self.old (with_served (served_now id site number self.old.served) self.new)
            number id site) }
        ensures served { self.new.served ≡ tidied_served self.new.waiting
            (served_now id site number self.old.served) }
        ensures timed { self.new.timed ≡ self.old.timed }
    {
        self.flights.stand_apart();
        self.waiting.stand_apart();
        let Some(row) = first_row(&self.waiting, id, &site) else {
            unreachable!()
        };
        let (owner, target) = (row.id, *row.site);
        self.flights.push(number, row);
        take_row(&mut self.waiting, id, &site);
        touch_message(&mut self.touched_message, owner);
        self.sites.begin(&target);
        self.schedule.stand_apart();
        self.schedule.start(owner, &target, number);
        self.schedule.stand_apart();
        self.schedule.lose(owner, &target);
        begin_flight(&mut self.admitted, owner);
        self.starts = number;
    }

    /// Counts the delivery to the site in the account of its job.
    fn count_start(&mut self, id: Id, site: &Site)
        ensures { IsStarted self.old self.new id site.now.transport }
    {
        count_start(&mut self.schedule, id, site.transport);
    }

    /// Starts the delivery of this number, which is beyond all others: of the row of the message that is
    /// next for the site.
    pub(crate) fn start_delivery(&mut self, number: u64, id: Id, site: Site)
        requires seen { IsTrue (is_looked_at self.old) }
        requires there { list_any (is_for id site) self.old.waiting ≡ true }
        requires next { self.old.starts < number }
        requires process { HasProcess self.old site.transport }
        ensures exact { (ps : List ℕ)
            → FollowsRule self.old self.new start_rule (Entry.Start number id site ps) }
        ensures flies { IsSome (flight_in self.new number) }
        ensures timed { self.new.timed ≡ self.old.timed }
    {
        self.send(number, id, site);
        self.count_start(id, &site);
        self.tidy();
    }
}
