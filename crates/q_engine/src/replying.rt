//! The end of a delivery: those whom it put off are noted, and its line is told.
ghost use Rattle.q_engine.specs.Steps.{EachError};
ghost use Rattle.q_host.specs.View.{Told};
ghost use Rattle.std.specs.Prelude.{◌≡◌, IsTrue, length, OnOk, Some, true};
ghost use Rattle.std.specs.List.{list_all};
ghost use Rattle.std.specs.Option.{option_copied};
ghost use Rattle.q_engine.specs.Refusals.{Flies, ForAgreed};
ghost use Rattle.q_core.specs.Deciding.{is_answered};
ghost use Rattle.q_books.specs.HostStands.{KeepsOtherNotes};
ghost use Rattle.q_engine.specs.Delays.{AddsDelays};
ghost use Rattle.q_core.specs.Hearing.{has_log_code};
ghost use Rattle.q_engine.specs.Heard.{HearsEvent, StopsHearing};
ghost use Rattle.q_engine.specs.Looks.{ForStands};
ghost use Rattle.q_engine.specs.Stands.{IsReady};
ghost use Rattle.q_entries.specs.Causes.{HostCause};
ghost use Rattle.q_files.specs.KeptBooks.{KeepsBook};
ghost use Rattle.q_host.specs.Faults.{DiskCause};
ghost use Rattle.q_model.specs.declared.event.Event.TheVariants as events;
ghost use Rattle.q_model.specs.IdTexts.{id_text};
ghost use Rattle.q_model.specs.Replies.{may_reply};

use crate::engine::Engine;
use crate::noting::{note_all, reply_notes};
use crate::sending::copied;
use q_core::Heard;
use q_entries::tell;
use q_host::{Host, HostError};
use q_model::{Entry, Id, Outcomes, Positions, SiteState};
use std::alloc::Global;

impl Engine {
    /// Notes whom a reply puts off. Where the message is too old, they fail instead.
    fn note_reply<H: Host>(
        &self,
        alloc: Global,
        host: &mut H,
        id: Id,
        positions: &[u32],
        outcomes: &Outcomes,
    ) -> Result<(), HostError>
        requires codes { list_all has_log_code outcomes.now ≡ true }
        // Where there is an outcome for each position.
        ensures noted { OnOk result (IsTrue H.tells → length positions.now ≡ length outcomes.now
            → AddsDelays self.now.core.value id positions.now outcomes.now
            (H.view host.old).files (H.view host.new).files) }
        ensures others { IsTrue H.tells
            → KeepsOtherNotes (id_text id) (H.view host.old) (H.view host.new) }
        ensures book { KeepsBook H.tells H.view host.old host.new }
        ensures cause { DiskCause (H.faults host.old) (H.faults host.new) result }
    {
        if self.is_expired(id) {
            return Ok(());
        }
        let outcomes = outcomes.as_slice();
        if positions.len() != outcomes.len() {
            return Ok(());
        }
        let notes = reply_notes(alloc, positions, outcomes)?;
        note_all(alloc, host, id, notes.as_slice())
    }

    /// A delivery ends.
    pub(crate) fn hear_reply<H: Host>(
        &mut self,
        alloc: Global,
        host: &mut H,
        number: u64,
        site: SiteState,
        outcomes: Outcomes,
    ) -> Result<(), HostError>
        requires ready { IsReady self.old }
        requires timed { self.old.core.value.timed ≡ true }
        requires flies { Flies self.old number }
        requires fits { ForAgreed self.old (λ w l. may_reply l number site outcomes ≡ true) }
        requires codes { list_all has_log_code outcomes ≡ true }
        ensures ok { OnOk result (Told H.tells H.view host.old host.new
            (HearsEvent (events.Reply number site outcomes) self.old self.new)) }
        ensures answered { OnOk result (is_answered self.new.core.value.question ≡ true) }
        ensures timed { OnOk result (self.new.core.value.timed ≡ true) }
        ensures err { EachError result (λ error. Told H.tells H.view host.old host.new
            (StopsHearing (events.Reply number site outcomes) self.old error)) }
        ensures cause { HostCause (H.faults host.old) (H.faults host.new) result }
    {
        let Some(flight) = self.core.flight(number) else {
            unreachable!()
        };
        let Some(positions) = self.core.entry_positions(number) else {
            unreachable!()
        };
        let positions = copied(alloc, positions)?;
        self.core.event(Heard::Reply {
            number,
            site,
            outcomes: &outcomes,
        });
        self.note_reply(alloc, host, flight.id, positions.as_slice(), &outcomes)?;
        tell(
            alloc,
            host,
            &self.table,
            &Entry::Reply {
                number,
                site,
                outcomes,
            },
        )
    }
}
