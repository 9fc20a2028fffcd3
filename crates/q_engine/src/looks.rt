//! The looks that the core asks for before a decision is known.
ghost use Rattle.q_host.specs.View.{Told};
ghost use Rattle.std.specs.Prelude.{◌≡◌, IfOk, IfSome, IsTrue, None, OnErr, OnOk, true};
ghost use Rattle.q_books.specs.HostStands.{KeepsNotes};
ghost use Rattle.q_core.specs.Agrees.{Agrees};
ghost use Rattle.q_core.specs.Deciding.{is_answered, is_look, question_of};
ghost use Rattle.q_core.specs.Facts.{IsDated};
ghost use Rattle.q_core.specs.Looking.{LeavesFewer};
ghost use Rattle.q_engine.specs.Looks.{AnswersLook, FindsNext, IsShown, LooksAhead, StaysAtBook};
ghost use Rattle.q_engine.specs.Stands.{IsReady};
ghost use Rattle.q_engine.specs.TakenOver.{IsTakenOver};
ghost use Rattle.q_host.specs.Calls.{Stays};
ghost use Rattle.q_host.specs.Faults.{DiskCause};
ghost use Rattle.q_model.specs.FilesStand.{Stands};
ghost use Rattle.q_model.specs.Ledger.{Ledger};
ghost use Rattle.q_model.specs.Settings.{World};

use crate::engine::Engine;
use q_core::{Core, Decision, Found};
use q_host::{Host, HostError};
use q_look::{look_active, look_deferred, look_incoming};
use std::alloc::Global;

/// What the queue that is looked at shows.
fn look<H: Host>(
    alloc: Global,
    host: &mut H,
    core: &Core,
    decision: &Decision,
) -> Result<Found, HostError>
    requires { is_look (question_of decision.now) ≡ true }
    ensures found { IfOk result (λ found. IsTrue H.tells → (w : World) → (l : Ledger)
        → Agrees w core.now l → Stands (H.view host.old).files l.book → IsShown decision.now found l) }
    ensures dated { IfOk result IsDated }
    ensures stays { IsTrue H.tells → Stays (H.view host.old) (H.view host.new) }
    ensures cause { DiskCause (H.faults host.old) (H.faults host.new) result }
{
    match decision {
        Decision::LookActive => look_active(alloc, host, core),
        Decision::LookIncoming => look_incoming(alloc, host),
        Decision::LookDeferred { after, until } => look_deferred(alloc, host, *after, *until),
        // No other decision is a look.
        _ => unreachable!(),
    }
}

impl Engine {
    /// Answers the look that waits.
    fn answer<H: Host>(
        &mut self,
        alloc: Global,
        host: &mut H,
        decision: &Decision,
    ) -> Result<(), HostError>
        requires look { is_look self.old.core.value.question ≡ true }
        requires asked { self.old.core.value.question ≡ question_of decision.now }
        ensures ok { OnOk result (Told H.tells H.view host.old host.new
            (AnswersLook decision.now self.old self.new)) }
        ensures answered { OnOk result (is_answered self.new.core.value.question ≡ true) }
        ensures fewer { OnOk result (LeavesFewer self.old.core.value self.new.core.value) }
        ensures timed { self.new.core.value.timed ≡ self.old.core.value.timed }
        ensures err { OnErr result (Told H.tells H.view host.old host.new (StaysAtBook self.old)) }
        ensures notes { IsTrue H.tells → KeepsNotes (H.view host.old) (H.view host.new) }
        ensures rest { self.new ≡ record self.old { core = self.new.core } }
        ensures cause { DiskCause (H.faults host.old) (H.faults host.new) result }
    {
        let found = look(alloc, host, &self.core, decision)?;
        self.core.found(found);
        Ok(())
    }

    /// The next decision that has an entry; looks are answered before it, of which at most four come
    /// in a row.
    pub(crate) fn next_entry<H: Host>(
        &mut self,
        alloc: Global,
        host: &mut H,
    ) -> Result<Option<Decision>, HostError>
        requires answered { is_answered self.old.core.value.question ≡ true }
        requires timed { self.old.core.value.timed ≡ true }
        ensures ok { IfOk result (λ d. Told H.tells H.view host.old host.new
            (FindsNext d self.old self.new)) }
        ensures err { OnErr result (Told H.tells H.view host.old host.new (StaysAtBook self.old)) }
        ensures taken { IfOk result (λ d. IfSome d (λ d. IsTakenOver d self.new.core.value)) }
        ensures ready { IfOk result (λ d. d ≡ None → IsReady self.new) }
        ensures timed { self.new.core.value.timed ≡ true }
        ensures notes { IsTrue H.tells → KeepsNotes (H.view host.old) (H.view host.new) }
        ensures rest { self.new ≡ record self.old { core = self.new.core } }
        ensures cause { DiskCause (H.faults host.old) (H.faults host.new) result }
    {
        loop {
            let Some(decision) = self.core.next_decision() else {
                return Ok(None);
            };
            if !self.core.is_looking() {
                return Ok(Some(decision));
            }
            self.answer(alloc, host, &decision)?;
        }
    }

    /// Answers the looks at the scan's next name, until that is known or there is no scan.
    pub(crate) fn look_ahead<H: Host>(
        &mut self,
        alloc: Global,
        host: &mut H,
    ) -> Result<(), HostError>
        requires answered { is_answered self.old.core.value.question ≡ true }
        requires timed { self.old.core.value.timed ≡ true }
        ensures ok { OnOk result (Told H.tells H.view host.old host.new
            (LooksAhead self.old self.new)) }
        ensures err { OnErr result (Told H.tells H.view host.old host.new (StaysAtBook self.old)) }
        ensures ready { OnOk result (IsReady self.new) }
        ensures timed { OnOk result (self.new.core.value.timed ≡ true) }
        ensures notes { IsTrue H.tells → KeepsNotes (H.view host.old) (H.view host.new) }
        ensures cause { DiskCause (H.faults host.old) (H.faults host.new) result }
    {
        'scan: loop {
            if self.core.is_looked_at() {
                return Ok(());
            }
            let Some(decision) = self.core.next_decision() else {
                unreachable!()
            };
            self.answer(alloc, host, &decision)?;
        }
    }
}
