//! A message comes: it is stored in incoming, and acknowledged by its line (RFC 5321, section 4.5.2).
ghost use Rattle.q_engine.specs.Steps.{EachError};
ghost use Rattle.q_host.specs.View.{Told};
ghost use Rattle.std.specs.Prelude.{◌≡◌, ◌≤◌, IsTrue, length, OnErr, OnOk, true};
ghost use Rattle.q_core.specs.Deciding.{is_answered};
ghost use Rattle.q_engine.specs.Heard.{HearsEvent, StopsHearing};
ghost use Rattle.q_engine.specs.Refusals.{MayArrive};
ghost use Rattle.q_engine.specs.Stands.{IsReady};
ghost use Rattle.q_entries.specs.Causes.{HostCause};
ghost use Rattle.q_host.specs.Faults.{DiskCause};
ghost use Rattle.q_model.specs.declared.event.Event.TheVariants as events;
ghost use Rattle.q_books.specs.HostStands.{KeepsNotes, TakesBy, TriesBy};
ghost use Rattle.q_files.specs.Submissions.{AddsMessage};
ghost use Rattle.q_message.specs.NewFile.{is_receiver};
ghost use Rattle.std.specs.List.{list_all};

use crate::engine::Engine;
use q_core::Heard;
use q_entries::tell;
use q_files::FileError;
use q_host::{Host, HostError};
use q_model::{Address, Addresses, Bytes, Entry, Head, Id, Moment};
use std::alloc::Global;

/// Stores a message, or a notice, which is within the limits of a queue file.
pub(crate) fn store<H: Host>(
    alloc: Global,
    host: &mut H,
    id: Id,
    head: &Head,
    to: &Addresses,
    content: &[u8],
) -> Result<(), HostError>
    requires arrival { head.now.arrival ≤ 999990000000 }
    requires some { 1 ≤ length to.now }
    requires few { length to.now ≤ 50000 }
    requires others { list_all is_receiver to.now ≡ true }
    requires short { length content.now ≤ 40000000 }
    ensures ok { OnOk result (TakesBy (AddsMessage (H.view host.old).files id head.now to.now content.now)
        H.tells H.view host.old host.new) }
    ensures err { OnErr result (TriesBy (AddsMessage (H.view host.old).files id head.now to.now content.now)
        H.tells H.view host.old host.new) }
    ensures notes { IsTrue H.tells → KeepsNotes (H.view host.old) (H.view host.new) }
    ensures cause { DiskCause (H.faults host.old) (H.faults host.new) result }
{
    match q_files::submit(alloc, host, id, head, to, content) {
        Ok(()) => Ok(()),
        Err(FileError::Disk) => Err(HostError::Disk),
        Err(FileError::NoMemory) => Err(HostError::NoMemory),
        Err(FileError::TooBig | FileError::TooMany) => unreachable!(),
    }
}

fn head_of(sender: &Option<Address>, arrival: Moment) -> Head
    ensures { result ≡ record { sender = sender.now; arrival = arrival } }
{
    Head {
        sender: *sender,
        arrival,
    }
}

impl Engine {
    /// A message comes under the next id of this life.
    pub(crate) fn hear_mail<H: Host>(
        &mut self,
        alloc: Global,
        host: &mut H,
        sender: Option<Address>,
        to: Addresses,
        content: Bytes,
    ) -> Result<(), HostError>
        requires ready { IsReady self.old }
        requires timed { self.old.core.value.timed ≡ true }
        requires some { 1 ≤ length to }
        requires others { list_all is_receiver to ≡ true }
        requires possible { MayArrive self.old.arrivals to content }
        ensures ok { OnOk result (Told H.tells H.view host.old host.new
            (HearsEvent (events.Mail sender to content) self.old self.new)) }
        ensures answered { OnOk result (is_answered self.new.core.value.question ≡ true) }
        ensures timed { OnOk result (self.new.core.value.timed ≡ true) }
        ensures err { EachError result (λ error. Told H.tells H.view host.old host.new
            (StopsHearing (events.Mail sender to content) self.old error)) }
        ensures cause { HostCause (H.faults host.old) (H.faults host.new) result }
    {
        let id = Id {
            generation: self.generation,
            serial: self.arrivals + 1,
            bounce: false,
        };
        let head = head_of(&sender, self.core.now());
        self.core.event(Heard::Mail { id });
        self.arrivals += 1;
        store(alloc, host, id, &head, &to, content.as_slice())?;
        tell(
            alloc,
            host,
            &self.table,
            &Entry::Arrive {
                id,
                sender,
                to,
                content,
            },
        )
    }
}
