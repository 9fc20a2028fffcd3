//! Recipients at a dead site are put off (SCHEDULER_README: the list of unreachable destinations).
ghost use Rattle.q_engine.specs.Steps.{EachError};
ghost use Rattle.q_host.specs.View.{Told};
ghost use Rattle.std.specs.Prelude.{◌≡◌, IsTrue, OnOk, Some, true};
ghost use Rattle.q_books.specs.HostStands.{KeepsOtherNotes};
ghost use Rattle.q_core.specs.Agrees.{ForLedgers};
ghost use Rattle.q_core.specs.declared.decision.Decision.TheVariants as decisions;
ghost use Rattle.q_engine.specs.Delays.{AddsDelays, row_outcomes};
ghost use Rattle.q_engine.specs.Steps.{CarriesOut, GivesDecisionUp, HasNext};
ghost use Rattle.q_entries.specs.Causes.{HostCause};
ghost use Rattle.q_files.specs.KeptBooks.{KeepsBook};
ghost use Rattle.q_host.specs.Faults.{DiskCause};
ghost use Rattle.q_model.specs.Book.{message_of};
ghost use Rattle.q_model.specs.IdTexts.{id_text};
ghost use Rattle.q_model.specs.Memory.{is_admitted};
ghost use Rattle.q_model.specs.Message.{Message};
ghost use Rattle.q_model.specs.Times.{is_expired};

use crate::engine::Engine;
use crate::noting::{note_all, row_notes};
use crate::sending::copied;
use q_entries::tell;
use q_host::{Host, HostError};
use q_model::{Entry, Id, Site};
use std::alloc::Global;

impl Engine {
    /// Whether the message is too old to be put off: its recipients fail then. False where it isn't
    /// in memory.
    pub(crate) fn is_expired(&self, id: Id) -> bool
        ensures { ForLedgers self.now.core.value (λ w l. (m : Message) → message_of l.book id ≡ Some m
            → is_admitted l id ≡ true → result ≡ is_expired w l.now m) }
    {
        if self.core.is_admitted(id) {
            return self.core.expired(id);
        }
        false
    }

    /// Notes that the recipients of a row are put off without a reply.
    fn note_row<H: Host>(
        &self,
        alloc: Global,
        host: &mut H,
        id: Id,
        positions: &[u32],
    ) -> Result<(), HostError>
        ensures noted { OnOk result (IsTrue H.tells → AddsDelays self.now.core.value id positions.now
            (row_outcomes positions.now) (H.view host.old).files (H.view host.new).files) }
        ensures others { IsTrue H.tells
            → KeepsOtherNotes (id_text id) (H.view host.old) (H.view host.new) }
        ensures book { KeepsBook H.tells H.view host.old host.new }
        ensures cause { DiskCause (H.faults host.old) (H.faults host.new) result }
    {
        if self.is_expired(id) {
            return Ok(());
        }
        let notes = row_notes(alloc, positions)?;
        note_all(alloc, host, id, notes.as_slice())
    }

    /// A row is put off.
    pub(crate) fn skip<H: Host>(
        &self,
        alloc: Global,
        host: &mut H,
        id: Id,
        site: Site,
        entry: u32,
    ) -> Result<(), HostError>
        requires decided { IsTrue H.tells
            → HasNext (decisions.Skip id site entry) self.now (H.view host.old) }
        requires row { self.now.core.value.skips ≡ entry }
        ensures ok { OnOk result (Told H.tells H.view host.old host.new
            (CarriesOut (decisions.Skip id site entry) self.now self.now)) }
        ensures err { EachError result (λ error. Told H.tells H.view host.old host.new
            (GivesDecisionUp (decisions.Skip id site entry) self.now error)) }
        ensures cause { HostCause (H.faults host.old) (H.faults host.new) result }
    {
        let Some(positions) = self.core.row_positions(entry) else {
            unreachable!()
        };
        let positions = copied(alloc, positions)?;
        self.note_row(alloc, host, id, positions.as_slice())?;
        tell(
            alloc,
            host,
            &self.table,
            &Entry::Skip {
                id,
                site,
                positions,
            },
        )
    }
}
