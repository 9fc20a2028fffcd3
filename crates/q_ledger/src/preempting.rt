//! A job goes before the current one.
ghost use Rattle.std.specs.Prelude.{OnErr, OnOk, false, length, map, position, vec_capacity, vec_len, ℕ, ◌&&◌, ◌<◌, ◌==◌, ◌≡◌, ◌≤◌};
ghost use Rattle.std.specs.Option.{option_map_or};
ghost use Rattle.q_model.specs.Ids.{id_eq};
ghost use Rattle.q_model.specs.Preemptions.{after_preempt, is_current, preempt_line, put_before};
ghost use Rattle.q_ledger.specs.Held.{rest_in};
ghost use Rattle.q_ledger.specs.Preempting.{best_in};
ghost use Rattle.q_ledger.specs.Worlds.{world_of};
ghost use Rattle.std.specs.List.{enumerate_from, insert};
ghost use Rattle.q_ledger.specs.Changed.{ids_without, with_ledger};
ghost use Rattle.q_ledger.specs.Following.{Changes};

use crate::accounts::Accounts;
use crate::admitted::Slot;
use crate::ids::same_id;
use crate::ledger::Ledger;
use crate::leftovers::drop_id;
use crate::line::Line;
use crate::world::World;
use q_model::{Entry, Id, NoMemory};

/// Whether this is the message that was found.
fn is_slot(o: Option<Slot>, id: Id) -> bool
    ensures { result ≡ option_map_or (λ x. id_eq x.id id) o false }
{
    match o {
        Some(slot) => same_id(slot.id, id),
        None => false,
    }
}

fn place_of(ids: &[Id], id: Id) -> Option<usize>
    ensures { result ≡ position (λ x. id_eq x id) ids.now }
{
    ids.iter().position(|other| same_id(*other, id))
}

fn insert_id(ids: &mut Vec<Id>, at: usize, id: Id)
    requires within { at ≤ length ids.old.items }
    requires room { vec_len ids.old < vec_capacity ids.old }
    ensures { ids.new.items ≡ insert ids.old.items at id }
{
    let _ = ids.insert(at, id);
}

fn insert_before(ids: &mut Vec<Id>, child: Id, parent: Id)
    requires { vec_len ids.old < vec_capacity ids.old }
    ensures { ids.new.items ≡ put_before child parent ids.old.items }
{
    if let Some(at) = place_of(ids, parent) {
        insert_id(ids, at, child);
    }
}

/// Puts the child just before the parent.
fn put_before(ids: &mut Vec<Id>, child: Id, parent: Id) -> Result<(), NoMemory>
    ensures ok { OnOk result
        (ids.new.items ≡ put_before child parent (ids_without child ids.old.items)) }
    ensures err { OnErr result (ids.new.items ≡ ids.old.items) }
{
    ids.reserve(1)?;
    drop_id(ids, child);
    insert_before(ids, child, parent);
    Ok(())
}

impl Line {
    fn put_before(&mut self, child: Id, parent: Id) -> Result<(), NoMemory>
        ensures ok { OnOk result
            (self.new ≡ put_before child parent (ids_without child self.old)) }
        ensures err { OnErr result (self.new ≡ self.old) }
    {
        put_before(&mut self.ids, child, parent)?;
        Ok(())
    }
}

fn preempt_at(lines: &mut [Line], child: Id, parent: Id, transport: u8) -> Result<(), NoMemory>
    ensures ok { OnOk result (lines.new
        ≡ map (preempt_line child parent transport) (enumerate_from 0 lines.old)) }
    ensures err { OnErr result (lines.new ≡ lines.old) }
{
    let place = usize::from(transport);
    if place < lines.len() {
        lines[place].put_before(child, parent)?;
    }
    Ok(())
}

impl Ledger {
    /// Whether the job is the current one.
    fn is_current(&self, world: &World, transport: u8, id: Id) -> bool
        ensures { result ≡ is_current (world_of world.now) self.now.ledger transport id }
    {
        match self.current(world, transport) {
            Some(job) => same_id(job, id),
            None => false,
        }
    }

    pub(crate) fn may_preempt(
        &self,
        world: &World,
        accounts: &Accounts,
        child: Id,
        parent: Id,
        transport: u8,
        need: u32,
    ) -> bool
        ensures { result ≡ (is_current (world_of world.now) self.now.ledger transport parent
            && option_map_or (λ x. id_eq x.id child)
            (best_in world.now self.now accounts.now transport parent) false
            && (need == rest_in self.now child transport)) }
    {
        self.is_current(world, transport, parent)
            && is_slot(self.best(world, accounts, transport, parent), child)
            && u64::from(need) == self.rest(child, transport)
    }

    fn put_before(&mut self, child: Id, parent: Id, transport: u8) -> Result<(), NoMemory>
        ensures ok { OnOk result (self.new ≡ with_ledger self.old
            (after_preempt self.old.ledger child parent transport)) }
        ensures err { OnErr result (self.new ≡ self.old) }
    {
        preempt_at(&mut self.lines, child, parent, transport)?;
        Ok(())
    }

    /// The child stands just before its parent.
    pub(crate) fn preempt(&mut self, child: Id, parent: Id, transport: u8) -> Result<(), NoMemory>
        ensures ok { (need : ℕ) → OnOk result
            (Changes self.old (Entry.Preempt child parent transport need) self.new) }
        ensures err { OnErr result (self.new ≡ self.old) }
    {
        self.put_before(child, parent, transport)?;
        Ok(())
    }
}
