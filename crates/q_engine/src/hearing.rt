//! The entry of an event: moments and triggers, of which only the lines are told.
ghost use Rattle.q_engine.specs.Steps.{EachError};
ghost use Rattle.q_host.specs.View.{Told};
ghost use Rattle.std.specs.Prelude.{◌≡◌, ◌≤◌, IsTrue, max, OnOk, true};
ghost use Rattle.q_core.specs.Deciding.{is_answered};
ghost use Rattle.q_engine.specs.Heard.{HearsEvent, StopsHearing};
ghost use Rattle.q_engine.specs.Stands.{IsReady};
ghost use Rattle.q_entries.specs.Causes.{HostCause};
ghost use Rattle.q_model.specs.declared.event.Event.TheVariants as events;

use crate::engine::Engine;
use q_core::Heard;
use q_entries::tell;
use q_host::{Host, HostError};
use q_model::{Entry, Moment, Trigger};
use std::alloc::Global;

fn later(a: Moment, b: Moment) -> Moment
    ensures { result ≡ max a b }
{
    if a < b { b } else { a }
}

impl Engine {
    /// The clock keeps the latest moment.
    pub(crate) fn hear_moment<H: Host>(
        &mut self,
        alloc: Global,
        host: &mut H,
        moment: Moment,
    ) -> Result<(), HostError>
        requires ready { IsReady self.old }
        requires form { moment ≤ 999990000000 }
        ensures ok { OnOk result (Told H.tells H.view host.old host.new
            (HearsEvent (events.At moment) self.old self.new)) }
        ensures answered { OnOk result (is_answered self.new.core.value.question ≡ true) }
        ensures timed { OnOk result (self.new.core.value.timed ≡ true) }
        ensures err { EachError result (λ error. Told H.tells H.view host.old host.new
            (StopsHearing (events.At moment) self.old error)) }
        ensures cause { HostCause (H.faults host.old) (H.faults host.new) result }
    {
        let latest = later(self.core.now(), moment);
        self.core.event(Heard::At { moment: latest });
        tell(alloc, host, &self.table, &Entry::At { moment: latest })
    }

    /// A trigger (qmgr(8), "Triggers").
    pub(crate) fn hear_trigger<H: Host>(
        &mut self,
        alloc: Global,
        host: &mut H,
        kind: Trigger,
    ) -> Result<(), HostError>
        requires ready { IsReady self.old }
        requires timed { self.old.core.value.timed ≡ true }
        ensures ok { OnOk result (Told H.tells H.view host.old host.new
            (HearsEvent (events.Trigger kind) self.old self.new)) }
        ensures answered { OnOk result (is_answered self.new.core.value.question ≡ true) }
        ensures timed { OnOk result (self.new.core.value.timed ≡ true) }
        ensures err { EachError result (λ error. Told H.tells H.view host.old host.new
            (StopsHearing (events.Trigger kind) self.old error)) }
        ensures cause { HostCause (H.faults host.old) (H.faults host.new) result }
    {
        self.core.event(Heard::Trigger { kind });
        tell(alloc, host, &self.table, &Entry::Trigger { kind })
    }
}
