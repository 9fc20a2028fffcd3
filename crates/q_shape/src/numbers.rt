//! How many there are in each bucket.
ghost use Rattle.std.specs.Prelude.{◌≡◌, ◌++◌, ◌∷◌, [], List, ℕ};
ghost use Rattle.q_shape.specs.declared.options.ShapeOptions.{ShapeOptions as OptionsValue};
ghost use Rattle.q_shape.specs.Buckets.{IsShape};
ghost use Rattle.q_shape.specs.Counted.{AreNumbers, CanBeCounted, no_numbers};
ghost use Rattle.q_shape.specs.Counts.{Count};

use crate::buckets::bucket_of;
use crate::options::ShapeOptions;

/// The most buckets of a table.
const MOST: usize = 20;

/// How many there are, and how many in each bucket.
#[derive(Clone, Copy, Debug)]
pub(crate) struct Numbers {
    pub(crate) total: u128,
    pub(crate) buckets: [u128; MOST],
}

impl Numbers {
    /// Nothing is counted yet.
    pub(crate) fn none() -> Numbers
        ensures same { result ≡ no_numbers }
        ensures none { (o : OptionsValue) → IsShape o → AreNumbers o result [] }
    {
        Numbers {
            total: 0,
            buckets: [0; MOST],
        }
    }

    /// The numbers with so many more of an age. Each stays at the last value of 128 bits.
    pub(crate) fn with(self, options: &ShapeOptions, age: u64, number: u64) -> Numbers
        requires { IsShape options.now }
        ensures { (name : List ℕ) (cs : List Count) → AreNumbers options.now self cs
            → CanBeCounted (cs ++ (name, age, number) ∷ [])
            → AreNumbers options.now result (cs ++ (name, age, number) ∷ []) }
    {
        let bucket = bucket_of(options, age) as usize;
        let more = u128::from(number);
        let mut numbers = self;
        numbers.total = self.total.saturating_add(more);
        numbers.buckets[bucket] = self.buckets[bucket].saturating_add(more);
        numbers
    }
}
