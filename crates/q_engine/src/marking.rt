//! Marks of recipients that are done, and what makes them sure.
ghost use Rattle.q_engine.specs.Steps.{EachError};
ghost use Rattle.q_engine.specs.Stops.{EachStop, FindsReadable, StopCause};
ghost use Rattle.q_host.specs.View.{Told};
ghost use Rattle.std.specs.Prelude.{◌≡◌, ◌⊎◌, IfNone, IfOk, IfSome, IsTrue, OnOk, Some};
ghost use Rattle.q_core.specs.declared.decision.Decision.TheVariants as decisions;
ghost use Rattle.q_engine.specs.MarkOffsets.{FindsOffset, HasBareMark};
ghost use Rattle.q_engine.specs.Steps.{CarriesOut, GivesDecisionUp, HasNext};
ghost use Rattle.q_entries.specs.Causes.{HostCause};
ghost use Rattle.q_host.specs.Calls.{Stays};
ghost use Rattle.q_host.specs.Faults.{DiskCause};
ghost use Rattle.q_message.specs.Told.{IsThere};

use crate::engine::Engine;
use crate::read_fault::{head_at, unless_damaged};
use crate::stop::{Stop, unreadable};
use q_books::file_spot;
use q_entries::tell;
use q_files::{mark, mark_place, sync_marks};
use q_host::{Host, HostError};
use q_model::{Entry, Id, Place, Spot};
use std::alloc::Global;

/// The offset of a recipient's mark in the queue file at the spot: the one that was kept, or else
/// it is read. None where it can't be read, or its file says that it is set: where the host tells its
/// files, and it isn't, this never comes.
fn mark_offset<H: Host>(
    alloc: Global,
    host: &mut H,
    spot: Spot,
    position: u32,
    kept: Option<u64>,
) -> Result<Option<u64>, HostError>
    requires there { IsThere H.tells (H.view host.old) spot }
    requires bare { IsTrue H.tells → HasBareMark (H.view host.old) spot position }
    ensures offset { IfOk result (λ o. IfSome o (λ at. (kept ≡ Some at) ⊎ (IsTrue H.tells
        → FindsOffset (H.view host.old) spot position at))) }
    ensures found { IfOk result (λ o. IfNone o (IsTrue H.tells → ⊥)) }
    ensures stays { IsTrue H.tells → Stays (H.view host.old) (H.view host.new) }
    ensures cause { DiskCause (H.faults host.old) (H.faults host.new) result }
{
    if let Some(at) = kept {
        return Ok(Some(at));
    }
    let Some(head) = head_at(host, spot)? else {
        return Ok(None);
    };
    match mark_place(alloc, host, spot, &head, position) {
        Ok(found) => Ok(found),
        Err(error) => unless_damaged(error),
    }
}

impl Engine {
    /// Marks a recipient of a message as done.
    pub(crate) fn mark<H: Host>(
        &mut self,
        alloc: Global,
        host: &mut H,
        id: Id,
        position: u32,
    ) -> Result<(), Stop>
        requires { IsTrue H.tells
            → HasNext (decisions.Mark id position) self.old (H.view host.old) }
        ensures ok { OnOk result (Told H.tells H.view host.old host.new
            (CarriesOut (decisions.Mark id position) self.old self.new)) }
        ensures err { EachStop result (λ error. Told H.tells H.view host.old host.new
            (GivesDecisionUp (decisions.Mark id position) self.old error)) }
        ensures readable { FindsReadable H.tells result }
        ensures core { self.new.core ≡ self.old.core }
        ensures cause { StopCause (H.faults host.old) (H.faults host.new) result }
    {
        let spot = file_spot(Place::Active, id);
        let kept = self.places.take_mark(id, position);
        let Some(at) = mark_offset(alloc, host, spot, position, kept)? else {
            return Err(unreadable(spot));
        };
        mark(host, spot, at)?;
        tell(alloc, host, &self.table, &Entry::Mark { id, position })?;
        Ok(())
    }

    /// Makes the marks of a message outlive every crash.
    pub(crate) fn sync<H: Host>(&self, alloc: Global, host: &mut H, id: Id) -> Result<(), HostError>
        requires { IsTrue H.tells → HasNext (decisions.Sync id) self.now (H.view host.old) }
        ensures ok { OnOk result (Told H.tells H.view host.old host.new
            (CarriesOut (decisions.Sync id) self.now self.now)) }
        ensures err { EachError result (λ error. Told H.tells H.view host.old host.new
            (GivesDecisionUp (decisions.Sync id) self.now error)) }
        ensures cause { HostCause (H.faults host.old) (H.faults host.new) result }
    {
        sync_marks(host, file_spot(Place::Active, id))?;
        tell(alloc, host, &self.table, &Entry::Sync { id })
    }
}
