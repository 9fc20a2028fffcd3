//! The failures of recipients, which are stored in the failure log of their message.
ghost use Rattle.q_engine.specs.Steps.{EachError};
ghost use Rattle.q_host.specs.View.{Told};
ghost use Rattle.std.specs.Prelude.{◌≡◌, IsTrue, OnOk, true};
ghost use Rattle.q_core.specs.declared.decision.Decision.TheVariants as decisions;
ghost use Rattle.q_engine.specs.Steps.{CarriesOut, GivesDecisionUp, HasNext};
ghost use Rattle.q_entries.specs.Causes.{HostCause};
ghost use Rattle.q_model.specs.FailureLog.{is_log_code};

use crate::engine::Engine;
use q_entries::tell;
use q_files::store_failure;
use q_host::{Host, HostError};
use q_model::{Entry, Failure, Id};
use std::alloc::Global;

impl Engine {
    /// Stores the failure of a recipient, with a code that a log can hold.
    pub(crate) fn log<H: Host>(
        &self,
        alloc: Global,
        host: &mut H,
        id: Id,
        failure: Failure,
    ) -> Result<(), HostError>
        requires decided { IsTrue H.tells
            → HasNext (decisions.Log id failure) self.now (H.view host.old) }
        requires code { is_log_code failure.code ≡ true }
        ensures ok { OnOk result (Told H.tells H.view host.old host.new
            (CarriesOut (decisions.Log id failure) self.now self.now)) }
        ensures err { EachError result (λ error. Told H.tells H.view host.old host.new
            (GivesDecisionUp (decisions.Log id failure) self.now error)) }
        ensures cause { HostCause (H.faults host.old) (H.faults host.new) result }
    {
        store_failure(alloc, host, id, failure)?;
        tell(alloc, host, &self.table, &Entry::Log { id, failure })
    }
}
