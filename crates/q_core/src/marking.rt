//! Outcomes come to disk: a failure is logged, a recipient is marked.
ghost use Rattle.std.specs.Prelude.{◌≡◌, ◌<◌, ◌-◌, IsTrue, drop, length, ℕ};
ghost use Rattle.q_core.specs.Agrees.{FollowsRule};
ghost use Rattle.q_core.specs.Changes.{IsSlotChange, IsUnsettledChange, is_looked_at};
ghost use Rattle.q_pool.specs.Slots.{with_log, with_slot_mark};
ghost use Rattle.q_model.specs.Logs.{first_logged};
ghost use Rattle.q_model.specs.Next.{settling_rule};
ghost use Rattle.q_model.specs.declared.outcome.Failure.{Failure};

use crate::counting::lose_unsettled;
use crate::state::{Core, Seen};
use q_model::{Entry, Id, Need, Unsettled};

impl Core {
    fn note_log(&mut self, id: Id)
        ensures { IsSlotChange self.old self.new id with_log }
    {
        self.admitted.log(id);
    }

    /// The first outcome needs its mark next.
    fn want_mark(&mut self)
        ensures change { IsUnsettledChange self.old self.new (first_logged self.old.unsettled) }
        ensures memory { self.new.in_memory ≡ self.old.in_memory }
    {
        if let Some(first) = self.unsettled.first() {
            let wanted = Unsettled {
                need: Need::Mark,
                ..*first
            };
            self.unsettled.set_first(wanted);
        }
    }

    /// The first outcome's failure is logged.
    pub(crate) fn log(&mut self, id: Id)
        requires seen { IsTrue (is_looked_at self.old) }
        ensures exact { (f : Failure) → FollowsRule self.old self.new
            (λ w l. settling_rule l) (Entry.Log id f) }
        ensures timed { self.new.timed ≡ self.old.timed }
    {
        self.note_log(id);
        self.want_mark();
        self.tidy();
    }

    fn note_mark(&mut self, id: Id)
        ensures { IsSlotChange self.old self.new id with_slot_mark }
    {
        self.admitted.mark(id);
    }

    /// The first outcome is settled.
    fn settle_first(&mut self)
        requires { 0 < length self.old.unsettled }
        ensures change { IsUnsettledChange self.old self.new (drop 1 self.old.unsettled) }
        ensures memory { self.new.in_memory ≡ self.old.in_memory - 1 }
    {
        let Some(first) = self.unsettled.pop() else {
            unreachable!()
        };
        lose_unsettled(&mut self.admitted, first.id, 1);
        self.in_memory = self.in_memory.saturating_sub(1);
    }

    /// The first outcome's recipient is marked.
    pub(crate) fn mark_first(&mut self, id: Id)
        requires some { 0 < length self.old.unsettled }
        requires seen { IsTrue (is_looked_at self.old) }
        ensures exact { (at : ℕ) → FollowsRule self.old self.new
            (λ w l. settling_rule l) (Entry.Mark id at) }
        ensures timed { self.new.timed ≡ self.old.timed }
    {
        self.note_mark(id);
        self.settle_first();
        self.tidy();
    }
}
