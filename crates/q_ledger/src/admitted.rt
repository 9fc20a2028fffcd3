//! Which messages are in memory, and how many recipients.
ghost use Rattle.std.specs.Prelude.{◌≡◌, ◌-◌, ◌^◌, length, min, sum_by};
ghost use Rattle.std.specs.Option.{option_copied};
ghost use Rattle.q_model.specs.Memory.{free, has_waiting, in_memory};
ghost use Rattle.q_ledger.specs.Held.{is_idle_in, is_idle_slot, slot_in, unread_in};
ghost use Rattle.q_ledger.specs.Worlds.{world_of};

use crate::ids::same_id;
use crate::ledger::Ledger;
use crate::world::World;
use q_model::{Delivery, Id};

/// A message in memory: the first of its recipients that wasn't read, and two counts that would else
/// be walks.
#[derive(Clone, Copy, Debug)]
pub(crate) struct Slot {
    pub(crate) id: Id,
    pub(crate) unread: u32,
    /// How many recipients the message has.
    pub(crate) recipients: u32,
    /// How many of its rows wait, are in flight or are unsettled.
    pub(crate) rows: u128,
}

/// How many recipients these deliveries are to; as many as can be counted.
fn count_in_flight(flights: &[Delivery]) -> u64
    ensures { result ≡ min (sum_by (λ f. length f.row.positions) flights.now) (2 ^ 64 - 1) }
{
    let mut count: u64 = 0;
    for flight in flights.iter() {
        count = count.saturating_add(flight.row.positions.len() as u64);
    }
    count
}

impl Slot {
    /// How many recipients were not read yet.
    pub(crate) fn left(&self) -> u32
        ensures { result ≡ self.now.recipients - self.now.unread }
    {
        self.recipients.saturating_sub(self.unread)
    }

    /// Whether nothing is unread, waits, is in flight or is unsettled.
    pub(crate) fn is_idle(&self) -> bool
        ensures { result ≡ is_idle_slot self.now }
    {
        self.left() == 0 && self.rows == 0
    }
}

impl Ledger {
    pub(crate) fn slot(&self, id: Id) -> Option<&Slot>
        ensures { option_copied result ≡ slot_in self.now id }
    {
        self.admitted.iter().find(|slot| same_id(slot.id, id))
    }

    /// How many recipients of the message were not read yet.
    pub(crate) fn unread(&self, id: Id) -> u32
        ensures { result ≡ unread_in self.now id }
    {
        match self.slot(id) {
            Some(slot) => slot.left(),
            None => 0,
        }
    }

    pub(crate) fn has_waiting(&self, id: Id) -> bool
        ensures { result ≡ has_waiting self.now.ledger id }
    {
        self.waiting.has(id)
    }

    /// Whether the message is in memory, and nothing of it is unread or in memory.
    pub(crate) fn is_idle(&self, id: Id) -> bool
        ensures { result ≡ is_idle_in self.now id }
    {
        match self.slot(id) {
            Some(slot) => slot.is_idle(),
            None => false,
        }
    }

    /// The recipients in memory; as many as can be counted.
    fn in_memory(&self) -> u64
        ensures { result ≡ min (in_memory self.now.ledger) (2 ^ 64 - 1) }
    {
        self.waiting
            .recipients()
            .saturating_add(count_in_flight(&self.flights))
            .saturating_add(self.unsettled.len() as u64)
    }

    /// How many recipients more may be in memory.
    pub(crate) fn free(&self, world: &World) -> u64
        ensures { result ≡ free (world_of world.now) self.now.ledger }
    {
        u64::from(world.params.qmgr_message_recipient_limit).saturating_sub(self.in_memory())
    }
}
