//! What reports are, by the definitions alone.
ghost use Rattle.q_audit.specs.ReportLaws.{DelaysAreBounded, DelaysAreWhole, FrontsAreWhole, JobsAreDelays, JobsAreKept, JobsAreTold, JobsGoOn};

use q_tallies::tally_is_exact;

/// Entries that are the front of a run have no broken one among them, so none has two reports.
pub fn fronts_are_whole()
    ensures { FrontsAreWhole }
{}

/// How what is kept of preempted jobs goes on by an entry.
pub fn jobs_go_on()
    ensures { JobsGoOn }
{}

/// What is kept of preempted jobs says how many deliveries went before each, as far as 64 bits reach.
pub fn jobs_are_delays()
    ensures { JobsAreDelays }
{
    tally_is_exact();
}

/// Where it is known which jobs were preempted already, taking up an entry's and counting it keeps what
/// is kept.
pub fn jobs_are_kept()
    ensures { JobsAreKept }
{}

/// Of the front of a run it is known.
pub fn jobs_are_told()
    ensures { JobsAreTold }
{}

/// In a run preemption puts no more deliveries before a job, times the slot cost less one, than its
/// message has recipients.
pub fn delays_are_bounded()
    ensures { DelaysAreBounded }
{}

/// In a run 64 bits reach for each of these numbers.
pub fn delays_are_whole()
    ensures { DelaysAreWhole }
{}
