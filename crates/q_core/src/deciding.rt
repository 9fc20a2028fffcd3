//! The next decision, and what it changes.
ghost use Rattle.std.specs.Prelude.{◌≡◌, IsTrue, None, Some, true, [], ◌≤◌};
ghost use Rattle.q_core.specs.Agrees.{ForLedgers};
ghost use Rattle.q_core.specs.Changes.{is_looked_at};
ghost use Rattle.q_core.specs.Deciding.{AsksOnly, AsksSome, BeginsFlight, CanBeDone, IsDecided, decide_in, is_answered, is_look, is_reading, question_for, question_of, IsPlaced, IsSkipOf, IsStartOf, NotesSkip, Applies, AtLook, AtRead};
ghost use Rattle.q_core.specs.Looking.{is_unseen, looks_left};
ghost use Rattle.q_core.specs.Rooms.{AsksWithin};

use crate::decision::Decision;
use crate::state::{Core, Question, Seen};

impl Core {
    /// Waits for what a look or a read asks for; no site is named for it yet.
    fn ask(&mut self, decision: &Decision)
        requires { AsksWithin self.old.params (question_of decision.now) }
        ensures rest { self.new ≡ record self.old {
          question = question_of decision.now;
          named =
              self.new.named;
        } }
        ensures named { self.new.named ≡ [] }
    {
        self.named.clear();
        self.question = match decision {
            Decision::LookActive => Question::Active,
            Decision::LookIncoming => Question::Incoming,
            Decision::LookDeferred { .. } => Question::Deferred,
            Decision::Read { id, from, max } => Question::Recipients {
                id: *id,
                from: *from,
                max: *max,
            },
            _ => Question::Nothing,
        };
    }

    /// Takes a decision over.
    fn apply(&mut self, decision: &Decision)
        requires seen { IsTrue (is_looked_at self.old) }
        requires decided { decide_in self.old ≡ Some decision.now }
        ensures applied { Applies self.old decision.now self.new }
        ensures skipped { IsSkipOf self.old decision.now self.new }
        ensures flies { BeginsFlight (Some decision.now) self.new.flights }
        ensures timed { self.new.timed ≡ self.old.timed }
    {
        match *decision {
            Decision::Log { id, failure } => self.apply_log(id, failure),
            Decision::Mark { id, position } => self.apply_mark(id, position),
            Decision::Sync { id } => self.apply_sync(id),
            Decision::Skip { id, site, entry } => self.apply_skip(id, site, entry),
            Decision::Defer { id, due } => self.apply_defer(id, due),
            Decision::Back { id } => self.apply_back(id),
            Decision::Bounce { id } => self.apply_bounce(id),
            Decision::Remove { id } => self.apply_remove(id),
            Decision::Corrupt { id, place } => self.apply_corrupt(id, place),
            Decision::Admit { id, place } => self.apply_admit(id, place),
            Decision::Preempt {
                child,
                parent,
                transport,
                need,
            } => self.apply_preempt(child, parent, transport, need),
            Decision::Start { number, id, site } => self.apply_start(number, id, site),
            Decision::Read { .. } => {}
            Decision::LookActive => {}
            Decision::LookIncoming => {}
            Decision::LookDeferred { .. } => {}
        }
    }

    /// Whether no look and no read waits for its answer.
    pub fn is_answered(&self) -> bool
        ensures { result ≡ is_answered self.now.question }
    {
        match self.question {
            Question::Nothing => true,
            _ => false,
        }
    }

    /// Whether a read waits for its answer.
    pub fn is_reading(&self) -> bool
        ensures { result ≡ is_reading self.now.question }
    {
        match self.question {
            Question::Recipients { .. } => true,
            Question::Active => false,
            Question::Incoming => false,
            Question::Deferred => false,
            Question::Nothing => false,
        }
    }

    /// Whether a look waits for its answer.
    pub fn is_looking(&self) -> bool
        ensures { result ≡ is_look self.now.question }
    {
        match self.question {
            Question::Active => true,
            Question::Incoming => true,
            Question::Deferred => true,
            Question::Nothing => false,
            Question::Recipients { .. } => false,
        }
    }

    /// The next decision, which the core takes over as if it were carried out; or the look or the
    /// read that is wanted before it is known, which waits for `found` or `loaded`. It is what
    /// `decision` answered, and None exactly where the ledger is quiet.
    ///
    /// Of each look what it asks for is unseen, and an answer leaves fewer unseen: at most four
    /// looks come in a row, on whatever answers.
    pub fn next_decision(&mut self) -> Option<Decision>
        requires { is_answered self.old.question ≡ true }
        ensures exact { ForLedgers self.old (λ w l. IsDecided w l self.old result self.new) }
        ensures decided { result ≡ decide_in self.old }
        ensures placed { ForLedgers self.old (λ w l. IsPlaced l result) }
        ensures started { ForLedgers self.old (λ w l. IsStartOf w l result self.new) }
        ensures skipped { NotesSkip self.old result self.new }
        ensures question { self.new.question ≡ question_for result }
        ensures asked { AsksOnly self.old result self.new }
        ensures unseen { AtLook result (is_unseen self.new.question self.new ≡ true) }
        ensures looks { AtLook result (looks_left self.new ≡ looks_left self.old) }
        ensures few { looks_left self.new ≤ 4 }
        ensures reads { AtRead result (IsTrue (is_looked_at self.new)) }
        ensures some { AsksSome (question_for result) }
        ensures lawful { CanBeDone result }
        ensures unnamed { AtRead result (self.new.named ≡ []) }
        ensures flies { BeginsFlight result self.new.flights }
        ensures quiet { result ≡ None → self.old.timed ≡ true → IsTrue (is_looked_at self.new) }
        ensures timed { self.new.timed ≡ self.old.timed }
    {
        self.stand_within();
        let Some(decision) = self.decide() else {
            return None;
        };
        if decision.is_asking() {
            self.ask(&decision);
            return Some(decision);
        }
        self.apply(&decision);
        self.ask(&decision);
        Some(decision)
    }
}
