//! What a tally counts, by the definitions alone.
ghost use Rattle.q_tallies.specs.Bounded.{IsCountBounded, IsCountWhole};
ghost use Rattle.q_tallies.specs.Exact.{IsExact, IsExactLater};

/// A tally kept from where its message comes into memory counts the preempting starts of its job, as
/// far as 64 bits reach.
pub fn tally_is_exact()
    ensures { IsExact }
{}

/// So it is where the tally begins later, at the first preemption of its job.
pub fn tally_may_begin_later()
    ensures { IsExactLater }
{}

/// The count of a job, times the slot cost less one, is at most the recipients of its message.
pub fn count_is_bounded()
    ensures { IsCountBounded }
{}

/// The count of a job is whole where a slot doesn't cost 1, as no parameters let it.
pub fn count_is_whole()
    ensures { IsCountWhole }
{}
