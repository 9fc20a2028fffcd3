//! Events: what comes to the core from outside.
ghost use Rattle.std.specs.Prelude.{◌≡◌, IsTrue, true};
ghost use Rattle.q_core.specs.Agrees.{ForLedgers, FollowsAllowed};
ghost use Rattle.q_core.specs.Changes.{is_looked_at};
ghost use Rattle.q_core.specs.Deciding.{is_answered};
ghost use Rattle.q_core.specs.Hearing.{HasLogCodes, Hears, IsHeard, IsInTime, is_timed_by};
ghost use Rattle.q_model.specs.declared.entry.Entry.{Entry};

use crate::state::{Core, Question, Seen};
use q_model::{Id, Moment, Outcomes, SiteState, Trigger};

/// What comes from outside, without its texts.
#[derive(Clone, Copy, Debug)]
pub enum Heard<'a> {
    At {
        moment: Moment,
    },
    /// A message was stored in incoming under this id.
    Mail {
        id: Id,
    },
    /// The delivery of this number ended, with an outcome for each of its recipients in order.
    Reply {
        number: u64,
        site: SiteState,
        outcomes: &'a Outcomes,
    },
    Trigger {
        kind: Trigger,
    },
}

impl Core {
    fn hear(&mut self, heard: Heard<'_>)
        requires time { IsInTime heard }
        requires codes { HasLogCodes heard }
        requires seen { IsTrue (is_looked_at self.old) }
        ensures exact { (e : Entry) → IsHeard heard.entry e → FollowsAllowed self.old self.new e }
        ensures timed { self.new.timed ≡ is_timed_by heard.entry self.old.timed }
    {
        match heard {
            Heard::At { moment } => self.hear_at(moment),
            Heard::Mail { id } => self.arrive(id),
            Heard::Reply {
                number,
                site,
                outcomes,
            } => self.hear_reply(number, site, outcomes.as_slice()),
            Heard::Trigger { kind } => self.hear_trigger(kind),
        }
    }

    /// Hears an event. The decisions that follow are those that `next_decision` then gives; nothing
    /// is asked behind it.
    ///
    /// It is an error to call it with a moment beyond 999,990,000,000, with a code that no failure log
    /// can hold, while a look or a read waits
    /// for its answer, and while a scan's next name wasn't looked at. A ledger allows an `At` that
    /// isn't before its clock, and after the first `At` of a life a `Mail` with the next id, a
    /// `Reply` of a delivery in flight with an outcome for each of its recipients, which are delays
    /// where the site is down, and each `Trigger`.
    pub fn event(&mut self, heard: Heard<'_>)
        requires time { IsInTime heard }
        requires codes { HasLogCodes heard }
        requires answered { is_answered self.old.question ≡ true }
        requires seen { IsTrue (is_looked_at self.old) }
        ensures exact { ForLedgers self.old (λ w l. Hears w l heard.entry self.new) }
        ensures answered { is_answered self.new.question ≡ true }
        ensures timed { self.new.timed ≡ is_timed_by heard.entry self.old.timed }
    {
        self.hear(heard);
        self.question = Question::Nothing;
    }
}
