//! Recipients of a message come into memory (postconf(5): qmgr_message_recipient_limit).
ghost use Rattle.std.specs.Prelude.{◌≡◌, ◌≤◌, ◌++◌, [], IsTrue, length, OnOk, true};
ghost use Rattle.q_core.specs.Agrees.{ForLedgers};
ghost use Rattle.q_core.specs.Changes.{is_looked_at};
ghost use Rattle.q_core.specs.Deciding.{is_answered, question_of};
ghost use Rattle.q_core.specs.declared.decision.Decision.TheVariants as decisions;
ghost use Rattle.q_engine.specs.Stands.{with_core};
ghost use Rattle.q_engine.specs.Loads.{AnswersRead, AsksFor, sites_of};
ghost use Rattle.q_engine.specs.Steps.{CarriesOut, EachError, GivesDecisionUp, HasNext};
ghost use Rattle.q_entries.specs.Causes.{HostCause};
ghost use Rattle.q_host.specs.View.{Told};

use crate::engine::Engine;
use crate::seeking::{Reading, read_pending};
use q_books::file_spot;
use q_core::Found;
use q_entries::tell;
use q_host::{Host, HostError};
use q_model::{Batch, Cursor, Entry, Id, Place};
use std::alloc::Global;

impl Engine {
    /// Names the sites of recipients that were read, of which the read asked for so many.
    fn name_sites(&mut self, taken: &Batch)
        requires asked { AsksFor self.old.core.value.question (length taken.now.items) }
        requires named { self.old.core.value.named ≡ [] }
        ensures { self.new ≡ record self.old {
          core = record self.old.core {
            value = record self.old.core.value {
              named = self.old.core.value.named ++ sites_of self.old taken.now.items;
            };
          };
        } }
    {
        for i in 0..taken.len() {
            let recipient = taken.get(i);
            let site = self.table.route(&recipient.address);
            self.core.sited(&site);
        }
    }

    /// Takes in recipients whose sites were named, and answers the read.
    fn take_in(&mut self, taken: &Batch, next: Cursor)
        requires asked { AsksFor self.old.core.value.question (length taken.now.items) }
        requires looked { is_looked_at self.old.core.value ≡ true }
        requires named { self.old.core.value.named ≡ [] }
        ensures exact { ForLedgers self.old.core.value (λ w l.
            AnswersRead w l self.old taken.now.items next.position self.new.core.value) }
        ensures rest { self.new ≡ with_core self.new.core.value self.old }
        ensures answered { is_answered self.new.core.value.question ≡ true }
        ensures timed { self.new.core.value.timed ≡ self.old.core.value.timed }
    {
        self.name_sites(taken);
        self.core.loaded(taken, next);
    }

    /// Reads the next recipients of a message into memory, and tells how far it was read. A message
    /// of which a record can't be read reads no more; that is told later, with its `Corrupt`.
    pub(crate) fn load<H: Host>(
        &mut self,
        alloc: Global,
        host: &mut H,
        id: Id,
        from: u32,
        max: u32,
    ) -> Result<(), HostError>
        requires decided { IsTrue H.tells
            → HasNext (decisions.Read id from max) self.old (H.view host.old) }
        requires question { self.old.core.value.question ≡ question_of (decisions.Read id from max) }
        requires reads { (is_looked_at self.old.core.value ≡ true) × (self.old.core.value.named ≡ []) }
        requires some { 1 ≤ max }
        ensures ok { OnOk result (Told H.tells H.view host.old host.new
            (CarriesOut (decisions.Read id from max) self.old self.new)) }
        ensures answered { OnOk result (is_answered self.new.core.value.question ≡ true) }
        ensures timed { OnOk result (self.new.core.value.timed ≡ self.old.core.value.timed) }
        ensures err { EachError result (λ error. Told H.tells H.view host.old host.new
            (GivesDecisionUp (decisions.Read id from max) self.old error)) }
        ensures cause { HostCause (H.faults host.old) (H.faults host.new) result }
    {
        let spot = file_spot(Place::Active, id);
        let known = self.places.progress(id);
        let Some(reading) = read_pending(alloc, host, spot, from, max, known)? else {
            self.core.found(Found::Damaged {
                id,
                due: 0,
                alone: true,
            });
            return Ok(());
        };
        let next = reading.progress.next;
        self.take_in(&reading.taken, next);
        self.places
            .keep(alloc, id, reading.progress, &reading.taken);
        let to = next.position;
        tell(alloc, host, &self.table, &Entry::Load { id, from, to })
    }
}
