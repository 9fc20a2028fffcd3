//! The events of a load, one after another.
ghost use Rattle.std.specs.Prelude.{◌≡◌, ◌≤◌, ◌∷◌, ◌^◌, [], ◌+◌, IfOk, IfSome, List, nat_lt, not, ℕ};
ghost use Rattle.q_engine.specs.Heard.{IsEventInForm};
ghost use Rattle.q_engine.specs.Looks.{ForStands};
ghost use Rattle.q_engine.specs.Refusals.{ForAgreed};
ghost use Rattle.q_host.specs.Calls.{Stays};
ghost use Rattle.q_load.specs.Due.{due, mail_due, next_reply, reply_due, round_due};
ghost use Rattle.q_load.specs.Progress.{HasHeard, HasRoom};
ghost use Rattle.q_mem_host.specs.Left.{view_of};
ghost use Rattle.q_model.specs.declared.event.Event.{Event as Events};

use crate::mails::mail;
use crate::numbers::next_number;
use crate::remaining::is_some_left;
use crate::replies::reply;
use crate::unfailing_host::UnfailingHost;
use q_engine::Engine;
use q_model::{Event, LAST_MOMENT, Moment, NoMemory};
use std::alloc::Global;

/// How often the clock goes on at most.
const MOST_ROUNDS: u64 = 200;

/// By how much it goes on, in seconds.
const ROUND: Moment = 4_000;

/// What makes the events of a load, behind the first: how many mails it has, how many events of each
/// kind came, and what the last one was.
#[derive(Clone, Copy, Debug, PartialEq, Eq)]
pub(crate) struct Generator {
    mails: u32,
    came: u64,
    /// The number of the mail that came last; the number of mails before the first.
    number: u32,
    replies: u64,
    rounds: u64,
    /// A mail came last.
    fresh: bool,
}

impl Generator {
    /// No event came yet.
    pub(crate) fn new(mails: u32) -> Generator
        ensures mails { result.mails ≡ mails }
        ensures heard { HasHeard result [] }
        ensures room { HasRoom result 0 }
    {
        Generator {
            mails,
            came: 0,
            number: mails,
            replies: 0,
            rounds: 0,
            fresh: false,
        }
    }

    /// Whether all mails came.
    fn is_full(&self) -> bool
        ensures { result ≡ not (nat_lt self.now.came self.now.mails) }
    {
        self.came >= u64::from(self.mails)
    }

    /// The next reply, to the delivery in flight that has the least number.
    fn next_reply(&self, alloc: Global, engine: &Engine) -> Result<Option<Event>, NoMemory>
        requires room { self.now.replies ≤ 2 ^ 60 }
        ensures exact { IfOk result (λ o. ForAgreed engine.now (λ w l. (heard : List Events)
            → HasHeard self.now heard → o ≡ next_reply heard l)) }
        ensures form { IfOk result (λ o. IfSome o IsEventInForm) }
    {
        let Some(number) = engine.least_flight() else {
            return Ok(None);
        };
        let Some(positions) = engine.positions(number) else {
            return Ok(None);
        };
        let event = reply(alloc, self.replies + 1, number, positions.len())?;
        Ok(Some(event))
    }

    /// The reply that is due: one behind each mail, and all behind the last mail.
    fn reply_due(&self, alloc: Global, engine: &Engine) -> Result<Option<Event>, NoMemory>
        requires room { self.now.replies ≤ 2 ^ 60 }
        ensures exact { IfOk result (λ o. ForAgreed engine.now (λ w l. (heard : List Events)
            → HasHeard self.now heard → o ≡ reply_due self.now.mails heard l)) }
        ensures form { IfOk result (λ o. IfSome o IsEventInForm) }
    {
        if self.fresh {
            return self.next_reply(alloc, engine);
        }
        if self.is_full() {
            return self.next_reply(alloc, engine);
        }
        Ok(None)
    }

    /// The mail that is due.
    fn mail_due(&self, alloc: Global) -> Result<Option<Event>, NoMemory>
        ensures exact { IfOk result (λ o. (heard : List Events)
            → HasHeard self.now heard → o ≡ mail_due self.now.mails heard) }
        ensures form { IfOk result (λ o. IfSome o IsEventInForm) }
    {
        if self.is_full() {
            return Ok(None);
        }
        let event = mail(alloc, next_number(self.number))?;
        Ok(Some(event))
    }

    /// The moment that is due, while a message is left.
    fn round_due(
        &self,
        alloc: Global,
        engine: &Engine,
        host: &mut UnfailingHost,
    ) -> Result<Option<Event>, NoMemory>
        ensures exact { IfOk result (λ o. ForStands engine.now (view_of host.old)
            (λ w l. (heard : List Events) → HasHeard self.now heard → o ≡ round_due heard l)) }
        ensures form { IfOk result (λ o. IfSome o IsEventInForm) }
        ensures stays { Stays (view_of host.old) (view_of host.new) }
    {
        if self.rounds >= MOST_ROUNDS {
            return Ok(None);
        }
        if !is_some_left(alloc, host)? {
            return Ok(None);
        }
        let moment = LAST_MOMENT.min(engine.now() + ROUND);
        Ok(Some(Event::At { moment }))
    }

    /// The event that is due. The host is only looked at.
    pub(crate) fn due(
        &self,
        alloc: Global,
        engine: &Engine,
        host: &mut UnfailingHost,
    ) -> Result<Option<Event>, NoMemory>
        requires room { self.now.replies ≤ 2 ^ 60 }
        ensures exact { IfOk result (λ o. ForStands engine.now (view_of host.old)
            (λ w l. (heard : List Events) → HasHeard self.now heard
            → o ≡ due self.now.mails heard l)) }
        ensures form { IfOk result (λ o. IfSome o IsEventInForm) }
        ensures stays { Stays (view_of host.old) (view_of host.new) }
    {
        if let Some(event) = self.reply_due(alloc, engine)? {
            return Ok(Some(event));
        }
        if let Some(event) = self.mail_due(alloc)? {
            return Ok(Some(event));
        }
        self.round_due(alloc, engine, host)
    }

    /// Counts an event that comes.
    pub(crate) fn note(&mut self, event: &Event)
        requires room { HasRoom self.old (2 ^ 60) }
        ensures heard { (heard : List Events) → HasHeard self.old heard
            → HasHeard self.new (event.now ∷ heard) }
        ensures mails { self.new.mails ≡ self.old.mails }
        ensures room { (most : ℕ) → HasRoom self.old most → HasRoom self.new (most + 1) }
    {
        self.fresh = false;
        match event {
            Event::Mail { .. } => {
                self.came += 1;
                self.number = next_number(self.number);
                self.fresh = true;
            }
            Event::Reply { .. } => self.replies += 1,
            Event::At { .. } => self.rounds += 1,
            Event::Trigger { .. } => {}
        }
    }
}
