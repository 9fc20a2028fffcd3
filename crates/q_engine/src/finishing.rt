//! The end of a life as asked.
//!
//! Its line alone is told: what the life knew is on disk already, so the next life begins with it.
ghost use Rattle.std.specs.Prelude.{◌≡◌, IsErrOf, IsTrue, OnOk, true};
ghost use Rattle.q_engine.specs.Beginnings.{EndsLife, StopsEnding};
ghost use Rattle.q_engine.specs.Refusals.{EngineCause, is_of_host, refusal_of};
ghost use Rattle.q_engine.specs.declared.error.EngineError.{EngineError as EngineRefusal};
ghost use Rattle.q_engine.specs.declared.error.EngineError.TheVariants as errors;
ghost use Rattle.q_host.specs.declared.error.HostError.{HostError as Refusal};

use crate::engine::Engine;
use crate::error::{EngineError, refusal_of};
use q_entries::tell;
use q_host::Host;
use q_model::Entry;
use q_transport::Table;
use std::alloc::Global;

impl Engine {
    /// Ends the life. It is refused by the output or for want of memory alone, and never touches
    /// the disk.
    pub fn finish<H: Host>(self, alloc: Global, host: &mut H) -> Result<(), EngineError>
        ensures ok { OnOk result (IsTrue H.tells
            → EndsLife self (H.view host.old) (H.view host.new)) }
        ensures err { (error : Refusal) → IsErrOf result (refusal_of error) → IsTrue H.tells
            → StopsEnding self error (H.view host.old) (H.view host.new) }
        ensures no_disk { IsErrOf result errors.Disk → ⊥ }
        ensures kinds { (error : EngineRefusal) → IsErrOf result error → is_of_host error ≡ true }
        ensures files { IsTrue H.tells → (H.view host.new).files ≡ (H.view host.old).files }
        ensures cause { EngineCause (H.faults host.old) (H.faults host.new) result }
    {
        match tell(alloc, host, &self.table, &Entry::End) {
            Ok(()) => Ok(()),
            Err(error) => Err(refusal_of(error)),
        }
    }

    /// The table of the life, for another one.
    pub fn release(self) -> Table
        ensures { result ≡ self.table }
    {
        self.table
    }
}
