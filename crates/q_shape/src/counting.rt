//! Filling a table.
ghost use Rattle.std.specs.Prelude.{◌≡◌, ◌++◌, ◌∷◌, [], List, OnOk};
ghost use Rattle.q_shape.specs.declared.options.ShapeOptions.{ShapeOptions as OptionsValue};
ghost use Rattle.q_shape.specs.Buckets.{IsShape};
ghost use Rattle.q_shape.specs.Counted.{CanBeCounted};
ghost use Rattle.q_shape.specs.Counts.{Count};
ghost use Rattle.q_shape.specs.Rows.{HasCounted, numbers_at};

use crate::age_table::AgeTable;
use crate::numbers::Numbers;
use crate::options::ShapeOptions;
use indexmap::IndexMap;
use q_model::{Hop, NoMemory};
use std::alloc::Global;

impl AgeTable {
    /// A table in which nothing is counted.
    pub fn new(alloc: Global, options: &ShapeOptions) -> AgeTable
        requires { IsShape options.now }
        ensures { HasCounted options.now [] result }
    {
        AgeTable {
            options: *options,
            all: Numbers::none(),
            rows: IndexMap::new(alloc),
        }
    }

    /// The numbers of a name.
    pub(crate) fn numbers_of(&self, name: &[u8]) -> Numbers
        ensures { result ≡ numbers_at self.now.rows.entries name.now }
    {
        match self.rows.get(name) {
            Some(numbers) => *numbers,
            None => Numbers::none(),
        }
    }

    /// Counts so many of a domain and of an age in seconds. After an error the table is of no use.
    /// Numbers stay at the last value of 128 bits, so they are of use while all together fit.
    pub fn add(
        &mut self,
        alloc: Global,
        domain: &Hop,
        age: u64,
        number: u64,
    ) -> Result<(), NoMemory>
        ensures { OnOk result ((o : OptionsValue) (cs : List Count) → HasCounted o cs self.old
            → CanBeCounted (cs ++ (domain.now, age, number) ∷ [])
            → HasCounted o (cs ++ (domain.now, age, number) ∷ []) self.new) }
    {
        let name = domain.bytes();
        let of_name = self.numbers_of(name);
        let numbers = of_name.with(&self.options, age, number);
        self.all = self.all.with(&self.options, age, number);
        self.rows.insert(name.to_vec(alloc)?, numbers)?;
        Ok(())
    }
}
