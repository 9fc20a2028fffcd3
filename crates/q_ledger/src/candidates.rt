//! Which job may preempt the current one (SCHEDULER_README, "Preemptive scheduling").
ghost use Rattle.std.specs.Prelude.{◌≡◌, ◌&&◌, ◌≤◌, ◌+◌, ◌==◌, ◌^◌, count_by, filter, Some, true};
ghost use Rattle.std.specs.List.{list_any};
ghost use Rattle.q_bare.specs.CountedRows.{may_by};
ghost use Rattle.q_bare.specs.Counts.{Counts};
ghost use Rattle.q_model.specs.Candidates.{age, ids_behind};
ghost use Rattle.q_model.specs.Ids.{id_eq};
ghost use Rattle.q_model.specs.Lists.{least};
ghost use Rattle.q_ledger.specs.Accounting.{AreFew, IsChargedWithin};
ghost use Rattle.q_ledger.specs.Beside.{IsBeside};
ghost use Rattle.q_ledger.specs.Worlds.{world_of};
ghost use Rattle.q_ledger.specs.Best.{best_with, prefer};
ghost use Rattle.q_ledger.specs.Held.{rest_in};
ghost use Rattle.q_ledger.specs.Preempting.{best_in, is_better_in, is_better_slot, is_candidate_in, is_candidate_slot, pays_with, standing_in};

use crate::accounts::Accounts;
use crate::admitted::Slot;
use crate::ids::same_id;
use crate::ledger::Ledger;
use crate::world::World;
use q_model::{Entry, Id, Row};

/// What decides whether a job is preempted: what it has begun, what it was charged, what it has left.
#[derive(Clone, Copy, Debug)]
pub(crate) struct Standing {
    pub(crate) begun: u64,
    pub(crate) charged: u64,
    pub(crate) left: u64,
}

/// Whether a job with this need may preempt one that stands so. What the account lacks stands on the
/// other side, so that no number is below 0.
fn pays(world: &World, parent: Standing, need: u64) -> bool
    ensures { result ≡ pays_with world.now.settings parent need }
{
    let cost = u128::from(world.params.default_delivery_slot_cost);
    let begun = u128::from(parent.begun);
    let owed = cost * u128::from(parent.charged);
    let left = u128::from(parent.left);
    let need = u128::from(need);
    let share = u128::from(100u32.saturating_sub(world.params.default_delivery_slot_discount));
    let price = need * share * cost + 100 * owed;
    let credit = 100 * (begun + u128::from(world.params.default_delivery_slot_loan) * cost);
    price <= credit
        && cost * need + owed <= begun + left
        && cost * u128::from(world.params.default_minimum_delivery_slots) <= begun + left
}

/// The jobs behind this one.
fn jobs_behind(jobs: &[Id], id: Id) -> &[Id]
    ensures { result.now ≡ ids_behind id jobs.now }
{
    let mut rest = jobs;
    while let [job, others @ ..] = rest {
        rest = others;
        if same_id(*job, id) {
            return rest;
        }
    }
    rest
}

fn stands_among(jobs: &[Id], id: Id) -> bool
    ensures { result ≡ list_any (id_eq id) jobs.now }
{
    jobs.iter().any(|job| same_id(id, *job))
}

/// How many of these rows wait for the transport.
fn count_at(rows: &[Row], transport: u8) -> usize
    ensures count { result ≡ count_by (λ r. r.site.transport == transport) rows.now }
    ensures few { result ≤ 2 ^ 63 }
{
    rows.iter()
        .filter(|row| row.site.transport == transport)
        .count()
}

impl Ledger {
    fn waiting_for(&self, id: Id, transport: u8) -> usize
        ensures count { result ≡ count_by (λ r. id_eq r.id id && (r.site.transport == transport))
            self.now.ledger.waiting }
        ensures few { result ≤ 2 ^ 63 }
    {
        count_at(self.waiting.of(id), transport)
    }

    /// What the job has left: its rows that wait, and its unread recipients.
    pub(crate) fn rest(&self, id: Id, transport: u8) -> u64
        ensures value { result ≡ rest_in self.now id transport }
        ensures few { result ≤ 2 ^ 63 + 2 ^ 32 }
    {
        self.waiting_for(id, transport) as u64 + u64::from(self.unread(id))
    }

    /// What a preemption charges fits beside what was charged before, since it is paid for.
    pub(crate) fn charge_fits(&self, world: &World, entry: &Entry)
        ensures { (c : Counts) → IsBeside self.now → AreFew c
            → may_by c (world_of world.now) self.now.ledger entry.now ≡ true
            → IsChargedWithin c entry.now }
    {
        let _ = world.params.default_delivery_slot_cost;
        match entry {
            Entry::Preempt {
                parent,
                transport,
                ..
            } => {
                let _ = self.rest(*parent, *transport);
            }
            _ => {}
        }
    }

    fn age(&self, id: Id) -> u64
        ensures { result ≡ age self.now.ledger id }
    {
        match self.book.message(id) {
            Some(message) => self.clock.since(message.arrival),
            None => 0,
        }
    }

    /// Whether the first preempts before the second: its (age + 1) / need is greater.
    fn is_better(&self, transport: u8, first: Id, second: Id) -> bool
        ensures { result ≡ is_better_in self.now transport first second }
    {
        let other = (u128::from(self.age(second)) + 1) * u128::from(self.rest(first, transport));
        let own = (u128::from(self.age(first)) + 1) * u128::from(self.rest(second, transport));
        other < own
    }

    fn standing(&self, accounts: &Accounts, id: Id, transport: u8) -> Standing
        ensures { result ≡ standing_in self.now accounts.now id transport }
    {
        Standing {
            begun: accounts.starts_of(id, transport),
            charged: accounts.charged(id, transport),
            left: self.rest(id, transport),
        }
    }

    /// The better of a message and of the best of those admitted behind it.
    fn better(&self, transport: u8, slot: &Slot, best: Option<Slot>) -> Option<Slot>
        ensures { result ≡ best_with (is_better_slot self.now transport) (Some slot.now) best }
    {
        match best {
            Some(other) => {
                if self.is_better(transport, other.id, slot.id) {
                    Some(other)
                } else {
                    Some(*slot)
                }
            }
            None => Some(*slot),
        }
    }

    /// Whether the message may preempt the current job, which stands so; `behind` are the jobs
    /// behind that.
    fn is_candidate(
        &self,
        world: &World,
        accounts: &Accounts,
        transport: u8,
        behind: &[Id],
        parent: Standing,
        id: Id,
    ) -> bool
        ensures { result ≡ is_candidate_in world.now self.now accounts.now transport behind.now
            parent id }
    {
        stands_among(behind, id)
            && accounts.starts_of(id, transport) == 0
            && pays(world, parent, self.rest(id, transport))
            && self.can_start(world, transport, id)
    }

    /// The better of a message, where it is a candidate, and of the best behind it.
    fn better_candidate(
        &self,
        world: &World,
        accounts: &Accounts,
        transport: u8,
        behind: &[Id],
        parent: Standing,
        slot: &Slot,
        best: Option<Slot>,
    ) -> Option<Slot>
        ensures { result ≡ prefer
            (is_candidate_slot world.now self.now accounts.now transport behind.now parent)
            (is_better_slot self.now transport) slot.now best }
    {
        if self.is_candidate(world, accounts, transport, behind, parent, slot.id) {
            self.better(transport, slot, best)
        } else {
            best
        }
    }

    /// The best of these messages that may preempt; among equals the first admitted.
    fn best_among(
        &self,
        world: &World,
        accounts: &Accounts,
        transport: u8,
        behind: &[Id],
        parent: Standing,
        slots: &[Slot],
    ) -> Option<Slot>
        ensures { result ≡ least (is_better_slot self.now transport)
            (filter (is_candidate_slot world.now self.now accounts.now transport behind.now parent)
            slots.now) }
    {
        let mut best = None;
        let mut i = slots.len();
        while i > 0 {
            i -= 1;
            let slot = &slots[i];
            best = self.better_candidate(world, accounts, transport, behind, parent, slot, best);
        }
        best
    }

    /// The job that preempts the current one; among equals the first admitted.
    pub(crate) fn best(
        &self,
        world: &World,
        accounts: &Accounts,
        transport: u8,
        parent: Id,
    ) -> Option<Slot>
        ensures { result ≡ best_in world.now self.now accounts.now transport parent }
    {
        if world.params.default_delivery_slot_cost == 0 {
            return None;
        }
        let standing = self.standing(accounts, parent, transport);
        if !pays(world, standing, 1) {
            return None;
        }
        let behind = jobs_behind(self.line(transport), parent);
        self.best_among(world, accounts, transport, behind, standing, &self.admitted)
    }
}
