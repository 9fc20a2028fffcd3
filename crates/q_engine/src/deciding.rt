//! The decisions that follow an event.
ghost use Rattle.q_engine.specs.Stops.{EachStop, FindsReadable, StopCause};
ghost use Rattle.q_host.specs.View.{Told};
ghost use Rattle.std.specs.Prelude.{◌≡◌, IsTrue, OnOk, true};
ghost use Rattle.q_core.specs.Deciding.{is_answered};
ghost use Rattle.q_engine.specs.Stands.{IsReady};
ghost use Rattle.q_engine.specs.Steps.{DecidesAll, HaltsDeciding, StandsForSome};

use crate::engine::Engine;
use crate::stop::Stop;
use q_host::Host;
use std::alloc::Global;

/// How many decisions may follow one event; what is left goes on with the next one. A life doesn't
/// come near: each costs a line.
const DECISIONS: u64 = 1 << 60;

impl Engine {
    /// Carries out and tells the decisions that follow an event, until there is none, or 2^60 of
    /// them. Then the scan's next name is looked at, as the next event asks for.
    pub(crate) fn decisions<H: Host>(&mut self, alloc: Global, host: &mut H) -> Result<(), Stop>
        requires answered { is_answered self.old.core.value.question ≡ true }
        requires timed { self.old.core.value.timed ≡ true }
        requires stands { IsTrue H.tells → StandsForSome self.old (H.view host.old) }
        ensures ok { OnOk result (Told H.tells H.view host.old host.new
            (DecidesAll self.old self.new)) }
        ensures ready { OnOk result (IsReady self.new) }
        ensures timed { OnOk result (self.new.core.value.timed ≡ true) }
        ensures err { EachStop result (λ error. Told H.tells H.view host.old host.new
            (HaltsDeciding self.old error)) }
        ensures readable { FindsReadable H.tells result }
        ensures cause { StopCause (H.faults host.old) (H.faults host.new) result }
    {
        for _ in 0..DECISIONS {
            let Some(decision) = self.next_entry(alloc, host)? else {
                return Ok(());
            };
            self.carry_out(alloc, host, &decision)?;
        }
        self.look_ahead(alloc, host)?;
        Ok(())
    }
}
