//! Which calls are made to fail.
ghost use Rattle.std.specs.Prelude.{◌≡◌, ◌-◌};
ghost use Rattle.std.specs.Option.{option_map};
ghost use Rattle.q_mem_host.specs.Plans.{no_plan, fails_next, after_call, stopping, failing_at};

use std::marker::Model;

#[derive(Clone, Copy, Debug)]
pub(crate) struct Plan {
    // how many calls are left before every call fails
    left: Option<u64>,
    // the number of the call that fails alone, counted from 1; 0 where it is behind us
    failing: Option<u64>,
}

impl Model for Plan {
    ghost use Rattle.q_mem_host.specs.Plans.{Plan as Planned};

    ghost Value = { Planned };

    ghost view = { λ p. record { left = p.left; failing = p.failing } };

    ghost inverse = { λ v. record { left = v.left; failing = v.failing } };
}

// One less, down to 0.
fn one_less(n: Option<u64>) -> Option<u64>
    ensures { result ≡ option_map (λ n. n - 1) n }
{
    match n {
        Some(n) => Some(n.saturating_sub(1)),
        None => None,
    }
}

impl Plan {
    /// No call fails.
    pub(crate) fn none() -> Plan
        ensures { result ≡ no_plan }
    {
        Plan {
            left: None,
            failing: None,
        }
    }

    pub(crate) fn stop_after(&mut self, calls: u64)
        ensures { self.new ≡ stopping calls self.old }
    {
        self.left = Some(calls);
    }

    pub(crate) fn fail_call(&mut self, call: u64)
        ensures { self.new ≡ failing_at call self.old }
    {
        self.failing = Some(call);
    }

    /// Counts a call, and answers whether it is to fail.
    pub(crate) fn count_call(&mut self) -> bool
        ensures fails { result ≡ fails_next self.old }
        ensures after { self.new ≡ after_call self.old }
    {
        let fails = self.left == Some(0) || self.failing == Some(1);
        self.left = one_less(self.left);
        self.failing = one_less(self.failing);
        fails
    }
}
