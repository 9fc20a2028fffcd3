//! How many deliveries preemption may put before a job, by the definitions alone. Each law is the
//! contract of a function with nothing to do.
#![tactic(auto)]

ghost use Rattle.q_inflation.specs.Bounds.{AtEachMoment, IsBounded, IsFirstAtNoCost};

/// The deliveries that preemption puts before a job, times the slot cost less one, are at most the
/// recipients of its message: from where the message comes into memory, at each moment of a run.
pub fn inflation_is_bounded()
    ensures { AtEachMoment IsBounded }
{}

/// Where a slot costs nothing, preemption puts no delivery before a job.
pub fn none_at_no_cost()
    ensures { AtEachMoment IsFirstAtNoCost }
{}
