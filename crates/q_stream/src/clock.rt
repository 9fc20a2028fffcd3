//! What a clock is: each call gives a moment, and none fails.
ghost use Rattle.std.specs.Prelude.{◌≤◌, List, ℕ, Option};
ghost use Rattle.q_stream.specs.Clocks.{AddsMoment, last_moment};

use q_model::Moment;

/// A clock of whole seconds since the epoch. It may go back, and it can't fail.
pub trait Clock {
    /// The moments that it gave, in order, where the clock tells them; the machine's can't.
    ghost given: { Self → Option (List ℕ) };

    /// The moment, at most 999,990,000,000: one beyond is taken as that. It is added to what was
    /// given, where the clock still tells.
    fn now(&mut self) -> Moment
        ensures within { result ≤ last_moment }
        ensures given { AddsMoment (given self.old) (given self.new) result };
}
