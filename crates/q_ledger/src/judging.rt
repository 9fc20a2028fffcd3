//! Whether a row allows an entry.
ghost use Rattle.std.specs.Prelude.{◌≡◌, ◌&&◌, ◌+◌, ◌==◌, true};
ghost use Rattle.q_bare.specs.CountedRows.{may_by};
ghost use Rattle.q_bare.specs.Counts.{Counts};
ghost use Rattle.q_model.specs.Lives.{mode_eq};
ghost use Rattle.q_ledger.specs.Beside.{AreAccounts, IsBeside, IsOfLedger};
ghost use Rattle.q_ledger.specs.Worlds.{world_of};

use crate::accounts::Accounts;
use crate::ledger::Ledger;
use crate::world::World;
use q_model::{Entry, Mode};

fn is_same_mode(a: Mode, b: Mode) -> bool
    ensures { result ≡ mode_eq a b }
{
    a == b
}

impl Ledger {
    /// Whether the generation is the next, in the same mode.
    fn may_begin(&self, generation: u32, mode: Mode) -> bool
        ensures { result ≡ ((generation == self.now.ledger.book.generation + 1)
            && mode_eq mode self.now.ledger.mode) }
    {
        u64::from(generation) == u64::from(self.book.generation) + 1
            && is_same_mode(mode, self.mode)
    }

    /// Whether the row of the entry allows it, in a life that goes on.
    pub(crate) fn may(&self, world: &World, accounts: &Accounts, entry: &Entry) -> bool
        ensures { (c : Counts) → IsOfLedger (world_of world.now) c self.now.ledger
            → IsBeside self.now → AreAccounts accounts.now c → c.begun ≡ true
            → result ≡ may_by c (world_of world.now) self.now.ledger entry.now }
    {
        match entry {
            Entry::Life { generation, mode } => self.may_begin(*generation, *mode),
            Entry::At { moment } => self.clock.seconds <= *moment,
            Entry::Arrive { id, .. } => self.may_arrive(accounts, *id),
            Entry::Back { id } => self.may_back(*id),
            Entry::Admit { id } => self.may_admit(world, *id),
            Entry::Load { id, from, to } => self.may_load(world, *id, *from, *to),
            Entry::Start {
                number,
                id,
                site,
                positions,
            } => self.may_start(world, accounts, *number, *id, site, positions.as_slice()),
            Entry::Preempt {
                child,
                parent,
                transport,
                need,
            } => self.may_preempt(world, accounts, *child, *parent, *transport, *need),
            Entry::Reply {
                number,
                site,
                outcomes,
            } => self.may_reply(*number, *site, outcomes.as_slice()),
            Entry::Skip {
                id,
                site,
                positions,
            } => self.may_skip(*id, site, positions.as_slice()),
            Entry::Log { id, failure } => self.may_log(*id, failure),
            Entry::Mark { id, position } => self.may_mark(*id, *position),
            Entry::Sync { id } => self.may_sync(*id),
            Entry::Defer { id, due } => self.may_defer(world, *id, *due),
            Entry::Bounce { id } => self.may_bounce(*id),
            Entry::Remove { id } => self.may_remove(*id),
            Entry::Corrupt { .. } => {
                self.is_whole();
                false
            }
            Entry::Trigger { .. } => self.timed,
            Entry::End => true,
        }
    }
}
