//! Counts of the sites that are dead.
ghost use Rattle.std.specs.Prelude.{◌≡◌, ◌≤◌, ◌+◌, ◌<◌, ◌^◌};
ghost use Rattle.q_dest.specs.Counting.{one_if};
ghost use Rattle.q_dest.specs.Dests.{is_dead_waiting, is_remembered};

use crate::dest::Dest;

/// How many sites are remembered, and how many are dead though rows wait for them.
#[derive(Clone, Copy, Debug)]
pub(crate) struct Counts {
    pub(crate) remembered: u32,
    pub(crate) dead_waiting: u32,
}

/// A count, where one passes or not that did so before or not.
fn recount(count: u32, before: bool, after: bool) -> u32
    requires counted { one_if before ≤ count }
    requires few { count + one_if after < 2 ^ 32 }
    ensures { result + one_if before ≡ count + one_if after }
{
    count + u32::from(after) - u32::from(before)
}

impl Counts {
    /// With the next site for the one that was found.
    pub(crate) fn changed(self, found: &Dest, next: &Dest) -> Counts
        requires remembered { one_if (is_remembered found.now) ≤ self.remembered }
        requires dead_waiting { one_if (is_dead_waiting found.now) ≤ self.dead_waiting }
        requires remembered_few { self.remembered < 2 ^ 30 }
        requires dead_waiting_few { self.dead_waiting < 2 ^ 30 }
        ensures remembered { result.remembered + one_if (is_remembered found.now)
            ≡ self.remembered + one_if (is_remembered next.now) }
        ensures dead_waiting { result.dead_waiting + one_if (is_dead_waiting found.now)
            ≡ self.dead_waiting + one_if (is_dead_waiting next.now) }
    {
        Counts {
            remembered: recount(self.remembered, found.is_remembered(), next.is_remembered()),
            dead_waiting: recount(
                self.dead_waiting,
                found.is_dead_waiting(),
                next.is_dead_waiting(),
            ),
        }
    }

    /// With one site more.
    pub(crate) fn with(self, next: &Dest) -> Counts
        requires remembered_few { self.remembered < 2 ^ 30 }
        requires dead_waiting_few { self.dead_waiting < 2 ^ 30 }
        ensures remembered { result.remembered
            ≡ self.remembered + one_if (is_remembered next.now) }
        ensures dead_waiting { result.dead_waiting
            ≡ self.dead_waiting + one_if (is_dead_waiting next.now) }
    {
        Counts {
            remembered: self.remembered + u32::from(next.is_remembered()),
            dead_waiting: self.dead_waiting + u32::from(next.is_dead_waiting()),
        }
    }

    /// Without the site that was found.
    pub(crate) fn without(self, found: &Dest) -> Counts
        requires remembered { one_if (is_remembered found.now) ≤ self.remembered }
        requires dead_waiting { one_if (is_dead_waiting found.now) ≤ self.dead_waiting }
        ensures remembered { result.remembered + one_if (is_remembered found.now)
            ≡ self.remembered }
        ensures dead_waiting { result.dead_waiting + one_if (is_dead_waiting found.now)
            ≡ self.dead_waiting }
    {
        Counts {
            remembered: self.remembered - u32::from(found.is_remembered()),
            dead_waiting: self.dead_waiting - u32::from(found.is_dead_waiting()),
        }
    }
}
