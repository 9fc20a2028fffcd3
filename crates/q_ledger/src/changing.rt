//! What an entry changes.
ghost use Rattle.std.specs.Prelude.{◌≡◌, ◌≤◌, ◌+◌, OnErr, OnOk};
ghost use Rattle.q_model.specs.Clock.{after_at, woken};
ghost use Rattle.q_model.specs.Scans.{ask_scan};
ghost use Rattle.q_model.specs.Triggers.{after_trigger};
ghost use Rattle.q_ledger.specs.Changed.{with_ledger};
ghost use Rattle.q_ledger.specs.Following.{ChangesIn, TakesIn};
ghost use Rattle.q_ledger.specs.Rows.{HasTime};
ghost use Rattle.q_ledger.specs.Worlds.{world_of};

use crate::clock::Clock;
use crate::ledger::Ledger;
use crate::world::World;
use q_model::{Entry, Moment, NoMemory, Trigger};
use std::alloc::Global;

impl Ledger {
    /// The clock is there; dead sites whose time has come are alive again, and rests end.
    fn wake(&mut self, world: &World, moment: Moment)
        requires { moment ≤ 999990000000 }
        ensures { self.new ≡ with_ledger self.old
            (woken (world_of world.now) self.old.ledger moment) }
    {
        self.clock = Clock::new(moment);
        self.timed = true;
        self.revive_due(world, moment);
    }

    /// A scan is asked for, and the next comes a while later.
    fn run_scan(&mut self, world: &World, moment: Moment)
        requires { moment ≤ 999990000000 }
        ensures { self.new ≡ with_ledger self.old (ask_scan (record self.old.ledger {
          next_run = moment + world.now.settings.run_delay;
        })) }
    {
        self.next_run = moment + u64::from(world.params.queue_run_delay);
        self.ask_scan();
    }

    fn pass_time(&mut self, world: &World, moment: Moment)
        requires { moment ≤ 999990000000 }
        ensures { self.new ≡ with_ledger self.old
            (after_at (world_of world.now) self.old.ledger moment) }
    {
        self.wake(world, moment);
        if self.next_run <= moment {
            self.run_scan(world, moment);
        }
    }

    fn pull(&mut self, world: &World, kind: Trigger)
        ensures { self.new ≡ with_ledger self.old
            (after_trigger (world_of world.now) self.old.ledger kind) }
    {
        match kind {
            Trigger::D => self.ask_scan(),
            Trigger::A => self.ignores = true,
            Trigger::F => self.revive_all(world),
        }
    }

    /// Takes an allowed entry over. Where memory runs out, nothing changes.
    fn change(&mut self, alloc: Global, world: &World, entry: &Entry) -> Result<(), NoMemory>
        requires { HasTime entry.now }
        ensures ok { OnOk result (ChangesIn (world_of world.now) self.old entry.now self.new) }
        ensures err { OnErr result (self.new ≡ self.old) }
    {
        match entry {
            Entry::Life { generation, mode } => self.begin(alloc, world, *generation, *mode)?,
            Entry::At { moment } => self.pass_time(world, *moment),
            Entry::Arrive { id, sender, to, .. } => {
                self.arrive(alloc, *id, sender, to.as_slice())?
            }
            Entry::Back { id } => self.back(*id),
            Entry::Admit { id } => self.admit(*id)?,
            Entry::Load { id, from, to } => self.load(alloc, world, *id, *from, *to)?,
            Entry::Start {
                number,
                id,
                site,
                positions,
            } => { self.start(*number, *id, site, positions.as_slice())? }
            Entry::Preempt {
                child,
                parent,
                transport,
                ..
            } => { self.preempt(*child, *parent, *transport)? }
            Entry::Reply {
                number,
                site,
                outcomes,
            } => { self.reply(alloc, world, *number, *site, outcomes.as_slice())? }
            Entry::Skip {
                id,
                site,
                positions,
            } => { self.skip(alloc, world, *id, site, positions.as_slice())? }
            Entry::Log { id, failure } => self.log(*id, *failure)?,
            Entry::Mark { id, position } => self.mark(*id, *position),
            Entry::Sync { id } => self.sync(*id)?,
            Entry::Defer { id, due } => self.defer(*id, *due),
            Entry::Bounce { id } => self.bounce(alloc, *id)?,
            Entry::Remove { id } => self.remove(*id),
            Entry::Corrupt { .. } => self.book.is_whole(),
            Entry::Trigger { kind } => self.pull(world, *kind),
            Entry::End => {}
        }
        Ok(())
    }

    /// Takes an allowed entry over, and tidies what is left.
    pub(crate) fn take(
        &mut self,
        alloc: Global,
        world: &World,
        entry: &Entry,
    ) -> Result<(), NoMemory>
        requires { HasTime entry.now }
        ensures ok { OnOk result (TakesIn (world_of world.now) self.old entry.now self.new) }
        ensures err { OnErr result (self.new ≡ self.old) }
    {
        let woken = self.woken_by(alloc, entry)?;
        self.change(alloc, world, entry)?;
        self.tidy(world, &woken);
        Ok(())
    }
}
