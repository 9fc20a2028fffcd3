//! The next decision: the first of eight rules that applies.
ghost use Rattle.std.specs.Prelude.{◌≡◌, ◌≤◌, [], find, IfOk, not, option_and_then};
ghost use Rattle.std.specs.List.{list_any};
ghost use Rattle.std.specs.Option.{option_copied};
ghost use Rattle.q_bare.specs.CountedRules.{next_by};
ghost use Rattle.q_bare.specs.Counts.{Counts};
ghost use Rattle.q_model.specs.Book.{message_of};
ghost use Rattle.q_model.specs.Finishing.{is_clean};
ghost use Rattle.q_model.specs.Next.{mark_logged, marks_of, needed, settling_rule, skip_of, skip_rule};
ghost use Rattle.q_model.specs.SiteRecords.{is_dead_site};
ghost use Rattle.q_ledger.specs.Beside.{AreAccounts, IsBeside, IsOfLedger};
ghost use Rattle.q_ledger.specs.Deciding.{admission_in, admit_in, clear_in, clear_marked_in, clearing_in, finish_in, finishing_in, moving_in, settling_in, sync_in};
ghost use Rattle.q_ledger.specs.Held.{is_idle_slot, wants_sync_in};
ghost use Rattle.q_ledger.specs.Picks.{pick_is};
ghost use Rattle.q_ledger.specs.Ruling.{HasLines, next_in};
ghost use Rattle.q_ledger.specs.Worlds.{world_of};

use crate::accounts::Accounts;
use crate::admitted::Slot;
use crate::finishing::due;
use crate::ledger::Ledger;
use crate::message::Message;
use crate::picking::Picked;
use crate::starting::copied;
use crate::world::World;
use q_bare::what_is_found;
use q_model::{Entry, Failure, Id, Need, NoMemory, Row};
use std::alloc::Global;

fn needed(id: Id, position: u32, need: Need) -> Entry
    ensures { result ≡ needed id position need }
{
    match need {
        Need::Log { why, code } => Entry::Log {
            id,
            failure: Failure {
                position,
                why,
                code,
            },
        },
        Need::Mark => Entry::Mark { id, position },
    }
}

/// The row is put off.
fn skip_of(alloc: Global, row: &Row) -> Result<Entry, NoMemory>
    ensures { IfOk result (λ e. e ≡ skip_of row.now) }
{
    let positions = copied(alloc, row.positions.as_slice())?;
    Ok(Entry::Skip {
        id: row.id,
        site: row.site,
        positions,
    })
}

/// A failure without its mark is marked.
fn mark_logged(message: &Message) -> Option<Entry>
    ensures { result ≡ mark_logged message.now }
{
    match message.unmarked_logged() {
        Some(position) => Some(Entry::Mark {
            id: message.id,
            position: position as u32,
        }),
        None => None,
    }
}

impl Ledger {
    /// The first unsettled outcome is logged or marked.
    fn next_need(&self) -> Option<Entry>
        ensures { result ≡ settling_rule self.now.ledger }
    {
        match self.unsettled.first() {
            Some(first) => Some(needed(first.id, first.position, first.need)),
            None => None,
        }
    }

    /// Whether a crash may lose a mark.
    fn has_written(&self) -> bool
        ensures { result ≡ list_any (λ m. not (is_clean m)) self.now.ledger.book.messages }
    {
        self.book.messages.iter().any(|message| !message.is_clean())
    }

    /// How many marks of the message a crash may still lose.
    fn marks_of(&self, id: Id) -> usize
        ensures { result ≡ marks_of self.now.ledger id }
    {
        match self.book.message(id) {
            Some(message) => message.written_marks(),
            None => 0,
        }
    }

    /// The message has mark_sync_limit marks that a crash may lose, or some and is idle.
    fn wants_sync(&self, world: &World, slot: &Slot) -> bool
        ensures { result ≡ wants_sync_in (world_of world.now) self.now slot.now }
    {
        let marks = self.marks_of(slot.id);
        world.params.mark_sync_limit as usize <= marks || 0 < marks && self.is_idle(slot.id)
    }

    /// The first such message.
    fn first_to_sync(&self, world: &World) -> Option<&Slot>
        ensures { option_copied result
            ≡ find (wants_sync_in (world_of world.now) self.now) self.now.slots }
    {
        self.admitted
            .iter()
            .find(|slot| self.wants_sync(world, slot))
    }

    /// The marks of the first such message are synced.
    fn next_sync(&self, world: &World) -> Option<Entry>
        ensures { 1 ≤ world.now.settings.mark_sync_limit
            → result ≡ sync_in (world_of world.now) self.now }
    {
        if !self.has_written() {
            return None;
        }
        match self.first_to_sync(world) {
            Some(slot) => Some(Entry::Sync { id: slot.id }),
            None => None,
        }
    }

    /// The first row at a dead site.
    fn first_at_dead_site(&self) -> Option<&Row>
        ensures { option_copied result
            ≡ find (λ r. is_dead_site self.now.ledger r.site) self.now.ledger.waiting }
    {
        self.waiting.first_at_dead_site(&self.sites)
    }

    /// The first row at a dead site is skipped.
    fn next_skip(&self, alloc: Global) -> Result<Option<Entry>, NoMemory>
        ensures { IfOk result (λ o. o ≡ skip_rule self.now.ledger) }
    {
        if !self.has_dead_site() {
            return Ok(None);
        }
        match self.first_at_dead_site() {
            Some(row) => {
                let skip = skip_of(alloc, row)?;
                Ok(Some(skip))
            }
            None => Ok(None),
        }
    }

    /// A message is deferred, else its bounce is stored, else it is removed.
    fn finish(&self, world: &World, message: &Message) -> Option<Entry>
        ensures { result ≡ finish_in world.now self.now message.now }
    {
        let id = message.id;
        let moment = due(world, self.clock, message);
        if self.may_defer(world, id, moment) {
            return Some(Entry::Defer { id, due: moment });
        }
        if self.may_bounce(id) {
            return Some(Entry::Bounce { id });
        }
        if self.may_remove(id) {
            return Some(Entry::Remove { id });
        }
        None
    }

    fn finish_id(&self, world: &World, id: Id) -> Option<Entry>
        ensures { result ≡ option_and_then (finish_in world.now self.now)
            (message_of self.now.ledger.book id) }
    {
        match self.book.message(id) {
            Some(message) => self.finish(world, message),
            None => None,
        }
    }

    fn first_idle(&self) -> Option<&Slot>
        ensures { option_copied result ≡ find is_idle_slot self.now.slots }
    {
        self.admitted.iter().find(|slot| slot.is_idle())
    }

    /// The first idle message is finished.
    fn next_finish(&self, world: &World) -> Option<Entry>
        ensures { result ≡ finishing_in world.now self.now }
    {
        match self.first_idle() {
            Some(slot) => self.finish_id(world, slot.id),
            None => None,
        }
    }

    /// A leftover whose failures are marked is synced, finished or moved back.
    fn clear_marked(&self, id: Id, message: &Message) -> Option<Entry>
        ensures { id ≡ message.now.id → result ≡ clear_marked_in self.now message.now }
    {
        if !self.was_synced(id) {
            return Some(Entry::Sync { id });
        }
        if self.may_bounce(id) {
            return Some(Entry::Bounce { id });
        }
        if self.may_remove(id) {
            return Some(Entry::Remove { id });
        }
        if self.may_back(id) {
            return Some(Entry::Back { id });
        }
        None
    }

    /// A leftover is marked, synced, finished or moved back.
    fn clear(&self, message: &Message) -> Option<Entry>
        ensures { result ≡ clear_in self.now message.now }
    {
        match mark_logged(message) {
            Some(mark) => Some(mark),
            None => self.clear_marked(message.id, message),
        }
    }

    fn clear_id(&self, id: Id) -> Option<Entry>
        ensures { result ≡ option_and_then (clear_in self.now)
            (message_of self.now.ledger.book id) }
    {
        match self.book.message(id) {
            Some(message) => self.clear(message),
            None => None,
        }
    }

    /// The least leftover is cleared.
    fn next_clearing(&self) -> Option<Entry>
        ensures { result ≡ clearing_in self.now }
    {
        match self.next_leftover() {
            Some(id) => self.clear_id(id),
            None => None,
        }
    }

    fn admit_picked(&self, pick: &Picked) -> Option<Entry>
        ensures { result ≡ admit_in self.now.ledger (pick_is pick.now) }
    {
        let id = pick.id();
        if self.may_admit_picked(id) {
            Some(Entry::Admit { id })
        } else {
            None
        }
    }

    /// The next file is admitted.
    fn next_admission(&self, world: &World) -> Option<Entry>
        ensures { result ≡ admission_in (world_of world.now) self.now.ledger }
    {
        match self.next_pick(world) {
            Some(pick) => self.admit_picked(&pick),
            None => None,
        }
    }

    /// The first that applies of the rules for outcomes.
    fn next_settling(&self, alloc: Global, world: &World) -> Result<Option<Entry>, NoMemory>
        ensures { 1 ≤ world.now.settings.mark_sync_limit
            → IfOk result (λ o. o ≡ settling_in (world_of world.now) self.now) }
    {
        if let Some(need) = self.next_need() {
            return Ok(Some(need));
        }
        if let Some(sync) = self.next_sync(world) {
            return Ok(Some(sync));
        }
        self.next_skip(alloc)
    }

    /// The first that applies of the rules for messages.
    fn next_moving(&self, world: &World) -> Option<Entry>
        ensures { result ≡ moving_in world.now self.now }
    {
        if let Some(finish) = self.next_finish(world) {
            return Some(finish);
        }
        if let Some(clearing) = self.next_clearing() {
            return Some(clearing);
        }
        if let Some(admission) = self.next_admission(world) {
            return Some(admission);
        }
        self.next_load(world)
    }

    /// The next decision; before the first moment of a life there is none.
    fn decide(
        &self,
        alloc: Global,
        world: &World,
        accounts: &Accounts,
    ) -> Result<Option<Entry>, NoMemory>
        ensures { 1 ≤ world.now.settings.mark_sync_limit
            → IfOk result (λ o. o ≡ next_in world.now self.now accounts.now) }
    {
        if !self.timed {
            return Ok(None);
        }
        if let Some(settling) = self.next_settling(alloc, world)? {
            return Ok(Some(settling));
        }
        if let Some(moving) = self.next_moving(world) {
            return Ok(Some(moving));
        }
        self.next_choice(alloc, world, accounts)
    }

    /// No file is damaged.
    pub(crate) fn is_whole(&self)
        ensures { self.now.ledger.book.damaged ≡ [] }
    {
        self.book.is_whole();
    }

    /// The next decision, as the ledger and the counts of its life have it.
    pub(crate) fn next(
        &self,
        alloc: Global,
        world: &World,
        accounts: &Accounts,
    ) -> Result<Option<Entry>, NoMemory>
        ensures { (c : Counts) → IsOfLedger (world_of world.now) c self.now.ledger
            → IsBeside self.now → AreAccounts accounts.now c
            → HasLines (world_of world.now) self.now.ledger
            → IfOk result (λ o. o ≡ next_by c (world_of world.now) self.now.ledger) }
    {
        what_is_found();
        self.is_whole();
        self.decide(alloc, world, accounts)
    }
}
