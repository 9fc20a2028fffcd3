//! Sums of feedback.
ghost use Rattle.std.specs.Prelude.{◌≡◌, ◌≤ℤ◌, ◌+ℤ◌, ◌-ℤ◌, neg_ℤ, pos, ◌*◌};
ghost use Rattle.q_model.specs.Feedbacks.{parts};

/// Feedback that hasn't come to a whole step of a window yet, in units: a feedback says how many
/// of them make 1.
#[derive(Clone, Copy, Debug, PartialEq, Eq, PartialOrd, Ord)]
pub struct Sum {
    pub units: i64,
}

impl Sum {
    pub fn add(&mut self, n: u64)
        requires low { neg_ℤ (pos (400 * parts)) ≤ℤ (self.old.units +ℤ pos n) }
        requires high { (self.old.units +ℤ pos n) ≤ℤ pos (400 * parts) }
        ensures { self.new.units ≡ self.old.units +ℤ pos n }
    {
        self.units = self.units.saturating_add_unsigned(n);
    }

    pub fn sub(&mut self, n: u64)
        requires low { neg_ℤ (pos (400 * parts)) ≤ℤ (self.old.units -ℤ pos n) }
        requires high { (self.old.units -ℤ pos n) ≤ℤ pos (400 * parts) }
        ensures { self.new.units ≡ self.old.units -ℤ pos n }
    {
        self.units = self.units.saturating_sub_unsigned(n);
    }
}
