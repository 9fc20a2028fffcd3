//! How an entry is judged by a ledger and the accounts beside it: what comes from outside is lawful where
//! it is allowed and nothing is due, and a decision where it is what is due.
ghost use Rattle.std.specs.Prelude.{◌≡◌, if◌then◌else◌, IfOk, None, Some, true};
ghost use Rattle.q_bare.specs.CountedRows.{may_by};
ghost use Rattle.q_bare.specs.CountedRules.{next_by};
ghost use Rattle.q_bare.specs.Counts.{Counts};
ghost use Rattle.q_fronts.specs.Openings.{opens};
ghost use Rattle.q_fronts.specs.Rules.{row_of};
ghost use Rattle.q_model.specs.declared.entry.Entry.TheVariants.{Life};
ghost use Rattle.q_model.specs.declared.event.Mode.{Mode};
ghost use Rattle.q_ledger.specs.Beside.{AreAccounts, IsBeside, IsOfLedger};
ghost use Rattle.q_ledger.specs.Holding.{IsJudgedBy};
ghost use Rattle.q_ledger.specs.Ruling.{HasLines};
ghost use Rattle.q_ledger.specs.Worlds.{world_of};
ghost use Rattle.q_ledger.specs.declared.recount.Judged.TheVariants.{Broken, Lawful};

use crate::accounts::Accounts;
use crate::entries::{is_event, row_of};
use crate::ledger::Ledger;
use crate::recount::Judged;
use crate::same::is_same;
use crate::world::World;
use q_bare::next_is_the_same;
use q_model::{Entry, NoMemory};
use std::alloc::Global;

/// Whether a run begins with the entry.
pub(crate) fn is_opening(entry: &Entry) -> bool
    ensures { result ≡ opens entry.now }
{
    match entry {
        Entry::Life { generation, .. } => *generation != 0,
        _ => false,
    }
}

/// The generation of the life with which a run begins.
pub(crate) fn first_generation(entry: &Entry) -> u32
    ensures { opens entry.now ≡ true → (mode : Mode) × (entry.now ≡ Life result mode) }
{
    match entry {
        Entry::Life { generation, .. } => *generation,
        _ => 0,
    }
}

/// The first entry of a trace begins a life.
pub(crate) fn judge_first(entry: &Entry) -> Judged
    ensures { result ≡ (if opens entry.now then Lawful else Broken 1) }
{
    if is_opening(entry) {
        Judged::Lawful
    } else {
        Judged::Broken { rule: 1 }
    }
}

/// The entry isn't what comes next: its row doesn't allow it, or only the order is broken.
fn refuse(world: &World, ledger: &Ledger, accounts: &Accounts, entry: &Entry) -> Judged
    ensures { (c : Counts) → IsOfLedger (world_of world.now) c ledger.now.ledger
        → IsBeside ledger.now → AreAccounts accounts.now c → c.begun ≡ true
        → result ≡ Broken (if may_by c (world_of world.now) ledger.now.ledger entry.now then 20
        else row_of entry.now) }
{
    if ledger.may(world, accounts, entry) {
        Judged::Broken { rule: 20 }
    } else {
        Judged::Broken {
            rule: row_of(entry),
        }
    }
}

/// What comes from outside is lawful where its row allows it.
fn admit(world: &World, ledger: &Ledger, accounts: &Accounts, entry: &Entry) -> Judged
    ensures { (c : Counts) → IsOfLedger (world_of world.now) c ledger.now.ledger
        → IsBeside ledger.now → AreAccounts accounts.now c → c.begun ≡ true
        → result ≡ (if may_by c (world_of world.now) ledger.now.ledger entry.now then Lawful
        else Broken (row_of entry.now)) }
{
    if ledger.may(world, accounts, entry) {
        Judged::Lawful
    } else {
        Judged::Broken {
            rule: row_of(entry),
        }
    }
}

/// Where a decision is due, the entry has to be that.
fn judge_due(
    world: &World,
    ledger: &Ledger,
    accounts: &Accounts,
    due: &Entry,
    entry: &Entry,
) -> Judged
    ensures { (c : Counts) → IsOfLedger (world_of world.now) c ledger.now.ledger
        → IsBeside ledger.now → AreAccounts accounts.now c → c.living ≡ true → c.begun ≡ true
        → next_by c (world_of world.now) ledger.now.ledger ≡ Some due.now
        → IsJudgedBy c (world_of world.now) ledger.now.ledger entry.now result }
{
    next_is_the_same();
    if is_event(entry) {
        return refuse(world, ledger, accounts, entry);
    }
    if is_same(due, entry) {
        return Judged::Lawful;
    }
    refuse(world, ledger, accounts, entry)
}

/// Where nothing is due, the entry has to come from outside.
fn judge_quiet(world: &World, ledger: &Ledger, accounts: &Accounts, entry: &Entry) -> Judged
    ensures { (c : Counts) → IsOfLedger (world_of world.now) c ledger.now.ledger
        → IsBeside ledger.now → AreAccounts accounts.now c → c.living ≡ true → c.begun ≡ true
        → next_by c (world_of world.now) ledger.now.ledger ≡ None
        → IsJudgedBy c (world_of world.now) ledger.now.ledger entry.now result }
{
    if is_event(entry) {
        admit(world, ledger, accounts, entry)
    } else {
        refuse(world, ledger, accounts, entry)
    }
}

/// In a life that goes on.
pub(crate) fn judge_living(
    alloc: Global,
    world: &World,
    ledger: &Ledger,
    accounts: &Accounts,
    entry: &Entry,
) -> Result<Judged, NoMemory>
    ensures { (c : Counts) → IsOfLedger (world_of world.now) c ledger.now.ledger
        → IsBeside ledger.now → AreAccounts accounts.now c
        → HasLines (world_of world.now) ledger.now.ledger → c.living ≡ true → c.begun ≡ true
        → IfOk result (λ j. IsJudgedBy c (world_of world.now) ledger.now.ledger entry.now j) }
{
    match ledger.next(alloc, world, accounts)? {
        Some(due) => Ok(judge_due(world, ledger, accounts, &due, entry)),
        None => Ok(judge_quiet(world, ledger, accounts, entry)),
    }
}
