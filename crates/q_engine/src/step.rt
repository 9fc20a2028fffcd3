//! One event, and the decisions that follow it.
ghost use Rattle.q_engine.specs.Steps.{EachError, EachFault};
ghost use Rattle.q_engine.specs.Stops.{EachStop, FindsReadable, StopCause};
ghost use Rattle.q_host.specs.View.{Told};
ghost use Rattle.std.specs.Prelude.{◌≡◌, ◌||◌, false, None, IfOk, IsErrOf, IsTrue, OnOk, Some, true};
ghost use Rattle.q_core.specs.Deciding.{is_answered};
ghost use Rattle.q_engine.specs.Heard.{HearsEvent, IsEventInForm, StopsHearing};
ghost use Rattle.q_engine.specs.Looks.{ForStands};
ghost use Rattle.q_engine.specs.Refusals.{EngineCause, ForAgreed, is_of_event, is_of_host, is_unreadable, IsAdmissible, refused_by, refused_event};
ghost use Rattle.q_engine.specs.Stands.{IsReady};
ghost use Rattle.q_engine.specs.Steps.{HaltsTurn, StandsForSome, TakesTurn};
ghost use Rattle.q_entries.specs.Causes.{HostCause};
ghost use Rattle.q_engine.specs.declared.error.EngineError.{EngineError as EngineRefusal};

use crate::engine::Engine;
use crate::error::{EngineError, stopped_by};
use crate::stop::Stop;
use q_host::{Host, HostError};
use q_model::Event;
use std::alloc::Global;

impl Engine {
    /// The event's own entry.
    fn hear<H: Host>(&mut self, alloc: Global, host: &mut H, event: Event) -> Result<(), HostError>
        requires ready { IsReady self.old }
        requires form { IsEventInForm event }
        requires admissible { IsAdmissible self.old event }
        requires accepted { ForAgreed self.old (λ w l. refused_event l event ≡ None) }
        requires stands { IsTrue H.tells → StandsForSome self.old (H.view host.old) }
        ensures ok { OnOk result (Told H.tells H.view host.old host.new
            (HearsEvent event self.old self.new)) }
        ensures answered { OnOk result (is_answered self.new.core.value.question ≡ true) }
        ensures timed { OnOk result (self.new.core.value.timed ≡ true) }
        ensures err { EachError result (λ error. Told H.tells H.view host.old host.new
            (StopsHearing event self.old error)) }
        ensures cause { HostCause (H.faults host.old) (H.faults host.new) result }
    {
        match event {
            Event::At { moment } => self.hear_moment(alloc, host, moment),
            Event::Mail {
                sender,
                to,
                content,
            } => self.hear_mail(alloc, host, sender, to, content),
            Event::Reply {
                number,
                site,
                outcomes,
            } => self.hear_reply(alloc, host, number, site, outcomes),
            Event::Trigger { kind } => self.hear_trigger(alloc, host, kind),
        }
    }

    /// The event's own entry and the decisions that follow it.
    fn take<H: Host>(&mut self, alloc: Global, host: &mut H, event: Event) -> Result<(), Stop>
        requires ready { IsReady self.old }
        requires form { IsEventInForm event }
        requires admissible { IsAdmissible self.old event }
        requires accepted { ForAgreed self.old (λ w l. refused_event l event ≡ None) }
        requires stands { IsTrue H.tells → StandsForSome self.old (H.view host.old) }
        ensures ok { OnOk result (Told H.tells H.view host.old host.new
            (TakesTurn event self.old self.new)) }
        ensures ready { OnOk result (IsReady self.new) }
        ensures timed { OnOk result (self.new.core.value.timed ≡ true) }
        ensures err { EachStop result (λ error. Told H.tells H.view host.old host.new
            (HaltsTurn event self.old error)) }
        ensures readable { FindsReadable H.tells result }
        ensures cause { StopCause (H.faults host.old) (H.faults host.new) result }
    {
        self.hear(alloc, host, event)?;
        self.decisions(alloc, host)
    }

    /// Hears an event, and carries out and tells the decisions that follow it, until there is none, or
    /// 2^60 of them: what is left goes on with the next event. The engine is spent by a refusal.
    ///
    /// `Untimed`, `Unknown`, `WrongCount` and `Limit` come exactly where the event is one of these,
    /// before anything is done; of `Limit` only Content, Recipients and Serial. `Unreadable` names a
    /// queue file of this life that can't be read any longer.
    pub fn step<H: Host>(
        self,
        alloc: Global,
        host: &mut H,
        event: Event,
    ) -> Result<Engine, EngineError>
        requires ready { IsReady self }
        requires form { IsEventInForm event }
        // Where the host tells its files, it and the engine stand for some ledger.
        requires stands { IsTrue H.tells → StandsForSome self (H.view host.old) }

        // What was told grew by the text of the event's turn, engine and host stand for the ledger
        // after it, nothing is left to decide but behind 2^60 decisions, and no crash meanwhile leaves
        // anything that the run of these entries doesn't allow.
        ensures ok { IfOk result (λ engine. Told H.tells H.view host.old host.new
            (TakesTurn event self engine)) }
        ensures ready { IfOk result (λ engine. IsReady engine) }
        // Behind any event a moment came.
        ensures timed { IfOk result (λ engine. engine.core.value.timed ≡ true) }

        // By a fault or for want of memory it went some way into that turn.
        ensures err { EachFault result (λ error. Told H.tells H.view host.old host.new
            (HaltsTurn event self error)) }

        // An event is refused exactly where the ledger says so, and nothing is done then.
        ensures refused { ForAgreed self (λ w l. (error : EngineRefusal)
            → refused_event l event ≡ Some error → IsErrOf result error × (host.new ≡ host.old)) }
        ensures only_refused { (error : EngineRefusal) → IsErrOf result error
            → is_of_event error ≡ true → ForAgreed self (λ w l. refused_event l event ≡ Some error) }
        // Whether a ledger is known or not, it is refused by what the engine keeps.
        ensures own { (error : EngineRefusal) → IsErrOf result error
            → is_of_event error ≡ true → refused_by self event ≡ Some error }

        // No other refusal comes, so none of the spool.
        ensures kinds { (error : EngineRefusal) → IsErrOf result error
            → (is_of_host error || (is_of_event error || is_unreadable error)) ≡ true }
        // Where the host tells its files, each can be read.
        ensures readable { IsTrue H.tells → (error : EngineRefusal) → IsErrOf result error
            → is_unreadable error ≡ false }
        ensures cause { EngineCause (H.faults host.old) (H.faults host.new) result }
    {
        let mut engine = self;
        if let Some(error) = engine.refusal(&event) {
            return Err(error);
        }
        match engine.take(alloc, host, event) {
            Ok(()) => Ok(engine),
            Err(stop) => Err(stopped_by(stop)),
        }
    }
}
