//! Answers to looks, and to reads that fail.
ghost use Rattle.std.specs.Prelude.{◌≡◌, false, map, true};
ghost use Rattle.q_core.specs.Agrees.{Agrees, ForLedgers};
ghost use Rattle.q_core.specs.Answers.{IsFound, is_fit, ForRead};
ghost use Rattle.q_core.specs.Changes.{IsDamageNoted, IsSlotChange, with_damaged};
ghost use Rattle.q_core.specs.Deciding.{is_answered};
ghost use Rattle.q_core.specs.Facts.{IsDated};
ghost use Rattle.q_core.specs.Held.{is_admitted_in};
ghost use Rattle.q_core.specs.Looking.{LeavesFewer};
ghost use Rattle.q_pool.specs.Slots.{changed_at, with_damage};
ghost use Rattle.q_model.specs.declared.id.Id.{Id};

use crate::decision::Found;
use crate::state::{Core, Question, Seen};
use crate::tidy::unread;
use crate::touched::touch_message;
use q_model::Id;

impl Core {
    /// A record of the message can't be read: it reads no more, and goes to corrupt once it is
    /// idle.
    fn note_damage(&mut self, id: Id)
        ensures { IsSlotChange self.old self.new id with_damage }
    {
        touch_message(&mut self.touched_message, id);
        self.admitted.damage(id);
        self.admitted.stand_apart();
        self.schedule.read(id, unread(&self.admitted, id));
    }

    fn note_found(&mut self, found: Found)
        requires { IsDated found }
        ensures exact { ForLedgers self.old (λ w l. IsFound self.old found l
            → Agrees w self.new l) }
        ensures fewer { LeavesFewer self.old self.new }
        ensures damaged { ForRead self.old.question
            (λ id. IsSlotChange self.old self.new id with_damage) }
        ensures timed { self.new.timed ≡ self.old.timed }
    {
        match self.question {
            Question::Active => self.found_active(found),
            Question::Incoming => self.found_incoming(found),
            Question::Deferred => self.found_deferred(found),
            Question::Nothing => {}
            Question::Recipients { id, .. } => self.note_damage(id),
        }
    }

    /// The answer to the look that waits for it: what stands first in the area that was looked
    /// at. In active that is the least id that isn't in memory, in incoming the least id, and in
    /// deferred the first name behind the look's place that is due by its moment.
    ///
    /// `Damaged` is the answer to a read too, where a record of the file can't be read: the message
    /// reads no more, and goes to corrupt once it is idle. Any other answer to a read is an error,
    /// as is an answer where nothing was asked, and one with a due moment of more than 12 digits.
    pub fn found(&mut self, found: Found)
        requires fit { is_fit self.old.question found ≡ true }
        requires dated { IsDated found }
        ensures exact { ForLedgers self.old (λ w l. IsFound self.old found l
            → Agrees w self.new l) }
        ensures fewer { LeavesFewer self.old self.new }
        ensures damaged { ForRead self.old.question (λ id. IsDamageNoted self.old self.new id) }
        ensures answered { is_answered self.new.question ≡ true }
        ensures timed { self.new.timed ≡ self.old.timed }
    {
        self.note_found(found);
        self.question = Question::Nothing;
    }

    /// The bounce that was decided of the message can't be made, since a name or its content can't be
    /// read: the message goes to corrupt in place of it. Where an earlier life left it, it is seen as a
    /// damaged file.
    ///
    /// It is an error to call it for any other message than that of the last decision, a `Bounce`.
    pub fn unbounceable(&mut self, id: Id)
        ensures kept { is_admitted_in self.old id ≡ true
            → IsSlotChange self.old self.new id with_damage }
        ensures left { is_admitted_in self.old id ≡ false → self.new ≡ with_damaged id self.old }
        ensures question { self.new.question ≡ self.old.question }
        ensures timed { self.new.timed ≡ self.old.timed }
    {
        if self.has_slot(id) {
            self.note_damage(id);
            return;
        }
        self.active = Seen::Known {
            found: Found::Damaged {
                id,
                due: 0,
                alone: true,
            },
        };
    }
}
