//! Queue files that move from queue to queue (qmgr(8), "mail queues").
//!
//! Each is one rename and then its line; a message that comes into memory loses its deferral log
//! first. Whatever was answered to the core, a name can tell each place that it decides.
ghost use Rattle.q_engine.specs.Steps.{EachError};
ghost use Rattle.q_host.specs.View.{Told};
ghost use Rattle.std.specs.Prelude.{◌<◌, ◌^◌, IsTrue, OnOk};
ghost use Rattle.q_core.specs.Deciding.{IsFoundDamaged, IsPicked};
ghost use Rattle.q_core.specs.declared.decision.Decision.TheVariants as decisions;
ghost use Rattle.q_engine.specs.Steps.{CarriesOut, GivesDecisionUp, HasNext};
ghost use Rattle.q_entries.specs.Causes.{HostCause};

use crate::engine::Engine;
use q_books::file_spot;
use q_entries::tell;
use q_files::{drop_notes, move_to};
use q_host::{Host, HostError};
use q_model::{Entry, Id, Moment, Place};
use std::alloc::Global;

impl Engine {
    /// A message that an earlier life left in active goes back to incoming.
    pub(crate) fn back<H: Host>(&self, alloc: Global, host: &mut H, id: Id) -> Result<(), HostError>
        requires { IsTrue H.tells → HasNext (decisions.Back id) self.now (H.view host.old) }
        ensures ok { OnOk result (Told H.tells H.view host.old host.new
            (CarriesOut (decisions.Back id) self.now self.now)) }
        ensures err { EachError result (λ error. Told H.tells H.view host.old host.new
            (GivesDecisionUp (decisions.Back id) self.now error)) }
        ensures cause { HostCause (H.faults host.old) (H.faults host.new) result }
    {
        move_to(
            host,
            file_spot(Place::Active, id),
            file_spot(Place::Incoming, id),
        )?;
        tell(alloc, host, &self.table, &Entry::Back { id })
    }

    /// A message waits in deferred until its next attempt is due.
    pub(crate) fn defer<H: Host>(
        &self,
        alloc: Global,
        host: &mut H,
        id: Id,
        due: Moment,
    ) -> Result<(), HostError>
        requires decided { IsTrue H.tells
            → HasNext (decisions.Defer id due) self.now (H.view host.old) }
        requires due { due < 10 ^ 12 }
        ensures ok { OnOk result (Told H.tells H.view host.old host.new
            (CarriesOut (decisions.Defer id due) self.now self.now)) }
        ensures err { EachError result (λ error. Told H.tells H.view host.old host.new
            (GivesDecisionUp (decisions.Defer id due) self.now error)) }
        ensures cause { HostCause (H.faults host.old) (H.faults host.new) result }
    {
        move_to(
            host,
            file_spot(Place::Active, id),
            file_spot(Place::Deferred(due), id),
        )?;
        tell(alloc, host, &self.table, &Entry::Defer { id, due })
    }

    /// A damaged file goes to corrupt.
    pub(crate) fn corrupt<H: Host>(
        &self,
        alloc: Global,
        host: &mut H,
        id: Id,
        place: Place,
    ) -> Result<(), HostError>
        requires decided { IsTrue H.tells
            → HasNext (decisions.Corrupt id place) self.now (H.view host.old) }
        requires place { IsFoundDamaged place }
        ensures ok { OnOk result (Told H.tells H.view host.old host.new
            (CarriesOut (decisions.Corrupt id place) self.now self.now)) }
        ensures err { EachError result (λ error. Told H.tells H.view host.old host.new
            (GivesDecisionUp (decisions.Corrupt id place) self.now error)) }
        ensures cause { HostCause (H.faults host.old) (H.faults host.new) result }
    {
        move_to(host, file_spot(place, id), file_spot(Place::Corrupt, id))?;
        tell(alloc, host, &self.table, &Entry::Corrupt { id })
    }

    /// A message comes into memory: its deferral log is taken away, and its file goes to active.
    pub(crate) fn admit<H: Host>(
        &self,
        alloc: Global,
        host: &mut H,
        id: Id,
        place: Place,
    ) -> Result<(), HostError>
        requires decided { IsTrue H.tells
            → HasNext (decisions.Admit id place) self.now (H.view host.old) }
        requires place { IsPicked place }
        ensures ok { OnOk result (Told H.tells H.view host.old host.new
            (CarriesOut (decisions.Admit id place) self.now self.now)) }
        ensures err { EachError result (λ error. Told H.tells H.view host.old host.new
            (GivesDecisionUp (decisions.Admit id place) self.now error)) }
        ensures cause { HostCause (H.faults host.old) (H.faults host.new) result }
    {
        drop_notes(host, id)?;
        move_to(host, file_spot(place, id), file_spot(Place::Active, id))?;
        tell(alloc, host, &self.table, &Entry::Admit { id })
    }
}
