//! The text of a table, with its domains in order.
ghost use Rattle.std.specs.Prelude.{◌≡◌, ◌++◌, IfOk, List, map, OnOk};
ghost use Rattle.q_shape.specs.declared.options.ShapeOptions.{ShapeOptions as OptionsValue};
ghost use Rattle.q_shape.specs.Counts.{Count};
ghost use Rattle.q_shape.specs.Rows.{AreRanks, HasCounted, names_of, rank_at, rank_seen};
ghost use Rattle.q_shape.specs.Tables.{IsTable, rank_lines};

use crate::age_table::AgeTable;
use crate::lines::{add_head, add_row};
use q_model::{Bytes, NoMemory};
use std::alloc::Global;
use std::cmp::Reverse;

/// How many are of a domain, and its name.
type Rank<'a> = (Reverse<u128>, &'a [u8]);

impl AgeTable {
    /// How many are of each domain, in the order of the map.
    fn ranks(&self, alloc: Global) -> Result<Vec<Rank<'_>>, NoMemory>
        ensures { IfOk result (λ ranks. map rank_seen ranks.items
            ≡ map (rank_at self.now.rows.entries) (names_of self.now.rows.entries)) }
    {
        let mut ranks = Vec::new(alloc);
        for name in self.rows.keys() {
            let numbers = self.numbers_of(name);
            ranks.push((Reverse(numbers.total), name.as_slice()))?;
        }
        Ok(ranks)
    }

    /// The same, greater numbers first, and equal ones by the bytes of the names.
    fn ranks_in_order(&self, alloc: Global) -> Result<Vec<Rank<'_>>, NoMemory>
        ensures { IfOk result (λ ranks. AreRanks self.now.rows.entries (map rank_seen ranks.items)) }
    {
        let mut ranks = self.ranks(alloc)?;
        ranks.sort()?;
        Ok(ranks)
    }

    /// Adds the lines of the domains.
    fn add_rows(
        &self,
        alloc: Global,
        text: &mut Vec<u8>,
        ranks: &[Rank<'_>],
    ) -> Result<(), NoMemory>
        ensures { OnOk result ((o : OptionsValue) (cs : List Count) → HasCounted o cs self.now
            → text.new.items ≡ text.old.items ++ rank_lines o cs (map rank_seen ranks.now)) }
    {
        for (_, name) in ranks {
            add_row(alloc, text, &self.options, name, &self.numbers_of(name))?;
        }
        Ok(())
    }

    /// The text of the table.
    pub fn text(&self, alloc: Global) -> Result<Bytes, NoMemory>
        ensures { IfOk result (λ text. (o : OptionsValue) (cs : List Count)
            → HasCounted o cs self.now → IsTable o cs text) }
    {
        let mut text = Vec::new(alloc);
        add_head(alloc, &mut text, &self.options)?;
        add_row(alloc, &mut text, &self.options, b"TOTAL", &self.all)?;
        let ranks = self.ranks_in_order(alloc)?;
        self.add_rows(alloc, &mut text, &ranks)?;
        Ok(Bytes::from_vec(text))
    }
}
