//! What holds after each entry: lines and sites of what is left.
ghost use Rattle.std.specs.Prelude.{◌≡◌, ◌<◌, false, filter, find, length, map, option_map};
ghost use Rattle.std.specs.List.{enumerate_from};
ghost use Rattle.std.specs.Option.{option_copied};
ghost use Rattle.q_core.specs.Changes.{IsTidied};
ghost use Rattle.q_core.specs.Ties.{ArePeersTied, AreSuspended};
ghost use Rattle.q_core.specs.Known.{forgotten};
ghost use Rattle.q_jobs.specs.Jobs.{is_job_of_another};
ghost use Rattle.q_pool.specs.Kept.{heads};
ghost use Rattle.q_core.specs.Tidied.{leaves_among, tidied_jobs, tidied_line, slot_among, stays_among, unread_among, waits_for as waits_for_in};
ghost use Rattle.q_held.specs.Held.{rows_of};
ghost use Rattle.q_turns.specs.Turns.{line_at, with_line};

use crate::rows::waits_for;
use crate::state::Core;
use crate::tidy_touched::tidy_touched_lines;
use crate::touched::{Touched, record_limit};
use q_dest::Sites;
use q_held::Rows;
use q_model::Id;
use q_pool::{Pool, Slot};
use q_schedule::Schedule;

fn slot(admitted: &Pool, id: Id) -> Option<&Slot>
    ensures { option_copied result ≡ slot_among (heads admitted.now.items) id }
{
    match admitted.get(id) {
        Some(kept) => Some(&kept.slot),
        None => None,
    }
}

/// How many positions of the message weren't read.
pub(crate) fn unread(admitted: &Pool, id: Id) -> u32
    ensures { result ≡ unread_among (heads admitted.now.items) id }
{
    match slot(admitted, id) {
        Some(slot) => slot.unread_count(),
        None => 0,
    }
}

/// Whether the message has something left at the transport.
pub(crate) fn stays(
    schedule: &Schedule,
    admitted: &Pool,
    waiting: &Rows,
    id: Id,
    transport: usize,
) -> bool
    requires { ArePeersTied schedule.now.peers (rows_of waiting.now.items) }
    ensures { result ≡ stays_among (heads admitted.now.items) (rows_of waiting.now.items) transport id }
{
    waits_for(schedule, waiting, id, transport) || unread(admitted, id) != 0
}

/// The message of the first job that has nothing left.
fn first_to_leave(
    schedule: &Schedule,
    admitted: &Pool,
    waiting: &Rows,
    transport: usize,
) -> Option<Id>
    requires { ArePeersTied schedule.now.peers (rows_of waiting.now.items) }
    ensures { result ≡ option_map (λ j. j.id) (find (leaves_among (heads admitted.now.items)
        (rows_of waiting.now.items) transport) (line_at transport schedule.now.lines)) }
{
    schedule.stand_apart();
    let mut at = schedule.first(transport);
    while let Some(job) = at {
        if !stays(schedule, admitted, waiting, job.id, transport) {
            return Some(job.id);
        }
        at = schedule.behind(transport, job.id);
    }
    None
}

/// The message, of which no row waits at the transport, leaves its line.
pub(crate) fn leave_line(schedule: &mut Schedule, id: Id, waiting: &Rows, transport: usize)
    requires there { transport < length schedule.old.lines }
    requires tied { ArePeersTied schedule.old.peers (rows_of waiting.now.items) }
    requires done { waits_for_in (rows_of waiting.now.items) id transport ≡ false }
    ensures { schedule.new ≡ record schedule.old {
      lines = with_line transport
          (filter (is_job_of_another id)) schedule.old.lines;
    } }
{
    schedule.stand_apart();
    schedule.leave(transport, id);
}

/// Takes the jobs that have nothing left out of the line: one leaves at a time, for the most part.
fn tidy_line(schedule: &mut Schedule, admitted: &Pool, waiting: &Rows, transport: usize)
    requires there { transport < length schedule.old.lines }
    requires tied { ArePeersTied schedule.old.peers (rows_of waiting.now.items) }
    ensures { schedule.new ≡ record schedule.old {
      lines = with_line transport (tidied_jobs
          (heads admitted.now.items) (rows_of waiting.now.items) transport) schedule.old.lines;
    } }
{
    while let Some(id) = first_to_leave(schedule, admitted, waiting, transport) {
        leave_line(schedule, id, waiting, transport);
    }
}

/// Takes the jobs that have nothing left out of the lines.
pub(crate) fn tidy_lines(schedule: &mut Schedule, admitted: &Pool, waiting: &Rows)
    requires { ArePeersTied schedule.old.peers (rows_of waiting.now.items) }
    ensures { schedule.new ≡ record schedule.old {
      lines = map (tidied_line (heads admitted.now.items)
          (rows_of waiting.now.items)) (enumerate_from 0 schedule.old.lines);
    } }
{
    for transport in 0..schedule.transports() {
        tidy_line(schedule, admitted, waiting, transport);
    }
}

/// Forgets the site that nothing goes to for the longest time, where more than `limit` are only
/// remembered. It isn't suspended any more.
fn forget_oldest(sites: &mut Sites, schedule: &mut Schedule, limit: usize)
    ensures sites { sites.new ≡ record sites.old { items = forgotten limit sites.old.items } }
    ensures rest { schedule.new ≡ record schedule.old { suspended = schedule.new.suspended } }
    ensures suspended { AreSuspended sites.old.items schedule.old.suspended
        → AreSuspended sites.new.items schedule.new.suspended }
{
    if sites.remembered() as usize <= limit {
        return;
    }
    if let Some(site) = sites.forget() {
        schedule.resume(&site);
    }
}

impl Core {
    /// Tidies after an entry.
    pub(crate) fn tidy(&mut self)
        ensures { IsTidied self.old self.new }
    {
        let limit = record_limit(&self.params);
        let message = &self.touched_message;
        self.sites.stand_apart();
        self.schedule.stand_apart();
        tidy_touched_lines(&mut self.schedule, message, &self.admitted, &self.waiting);
        forget_oldest(&mut self.sites, &mut self.schedule, limit);
        self.touched_message = Touched::Nothing;
    }
}
