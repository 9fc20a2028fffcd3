//! How many rows each message in memory has, as some come and some go.
ghost use Rattle.std.specs.Prelude.{◌≡◌, ◌≤◌, ◌+◌, ◌-◌, ◌^◌, length, map};
ghost use Rattle.q_ledger.specs.Counting.{count_changed, rows_counted};

use crate::admitted::Slot;
use crate::ids::same_id;
use crate::ledger::Ledger;
use q_model::Id;

impl Slot {
    fn count_rows(&mut self, id: Id, more: usize, fewer: u128)
        ensures { self.new ≡ count_changed id more fewer self.old }
    {
        if same_id(self.id, id) {
            self.rows = self.rows.saturating_add(more as u128).saturating_sub(fewer);
        }
    }
}

fn count_rows(slots: &mut [Slot], id: Id, more: usize, fewer: u128)
    ensures { slots.new ≡ map (count_changed id more fewer) slots.old }
{
    for slot in slots.iter_mut() {
        slot.count_rows(id, more, fewer);
    }
}

impl Ledger {
    /// So many rows more, or fewer, of the message.
    pub(crate) fn count_rows(&mut self, id: Id, more: usize, fewer: u128)
        ensures { self.new ≡ rows_counted id more fewer self.old }
    {
        count_rows(&mut self.admitted, id, more, fewer);
    }

    /// All rows, with so many more. They can be counted, since no list is longer than memory.
    pub(crate) fn total_rows(&self, more: usize) -> u128
        ensures { length self.now.ledger.waiting + length self.now.ledger.flights
            + length self.now.ledger.unsettled + more ≤ 2 ^ 128 - 1 }
    {
        self.waiting.len() as u128
            + self.flights.len() as u128
            + self.unsettled.len() as u128
            + more as u128
    }
}
