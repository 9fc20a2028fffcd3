//! Telling the listing.
ghost use Rattle.std.specs.Prelude.{◌≡◌, ◌+◌, flat_map, IfOk, IsTrue, length, List, OnErr, OnOk};
ghost use Rattle.q_host.specs.View.{Told};
ghost use Rattle.q_listing.specs.Listings.{found_line, lines_in, listing, recipient_count, total_line};
ghost use Rattle.q_model.specs.Book.{Book};
ghost use Rattle.q_model.specs.FilesStand.{Stands};
ghost use Rattle.q_model.specs.Message.{Message, pending};
ghost use Rattle.q_telling.specs.Telling.{OnlyTells, TellingCause, TellsFront, TellsMore};
ghost use Rattle.q_walk.specs.Counted.{counted};
ghost use Rattle.q_walk.specs.Walks.{IsAhead, IsFound};

use crate::lines::{add_message, add_total};
use crate::recipients::tell_recipients;
use q_host::{Host, HostError};
use q_model::Queues;
use q_telling::tell_text;
use q_walk::{Found, Walk};
use std::alloc::Global;

/// How many messages and pending recipients were told. Of a book neither comes to its last value.
#[derive(Clone, Copy, Debug, PartialEq, Eq)]
struct Totals {
    messages: u128,
    recipients: u128,
}

impl Totals {
    /// A message more, with so many pending recipients.
    fn with(self, recipients: u32) -> Totals
        ensures messages { result.messages ≡ counted (self.messages + 1) }
        ensures recipients { result.recipients ≡ counted (self.recipients + recipients) }
    {
        Totals {
            messages: self.messages.saturating_add(1),
            recipients: self.recipients.saturating_add(u128::from(recipients)),
        }
    }
}

/// Tells the line of a message that was found.
fn tell_head<H: Host>(alloc: Global, host: &mut H, found: &Found) -> Result<(), HostError>
    ensures told { OnOk result (Told H.tells H.view host.old host.new
        (TellsMore (found_line found.now))) }
    ensures front { OnErr result (Told H.tells H.view host.old host.new
        (TellsFront (found_line found.now))) }
    ensures only { Told H.tells H.view host.old host.new OnlyTells }
    ensures cause { TellingCause (H.faults host.old) (H.faults host.new) result }
{
    let mut text = Vec::new(alloc);
    let head = &found.head;
    let size = head.content_len;
    let arrival = head.head.arrival;
    add_message(
        alloc,
        &mut text,
        found.place,
        found.id,
        size,
        arrival,
        &head.head.sender,
    )?;
    tell_text(host, text.as_slice())
}

/// Tells the lines of a message that was found, and says how many pending recipients it has.
fn tell_message<H: Host>(alloc: Global, host: &mut H, found: &Found) -> Result<u32, HostError>
    ensures told { IfOk result (λ count. IsTrue H.tells → (m : Message)
        → IsFound (H.view host.old).files m found.now
        → (count ≡ length (pending m)) × TellsMore (lines_in (H.view host.old).files m)
        (H.view host.old) (H.view host.new)) }
    ensures front { OnErr result (IsTrue H.tells → (m : Message)
        → IsFound (H.view host.old).files m found.now
        → TellsFront (lines_in (H.view host.old).files m) (H.view host.old) (H.view host.new)) }
    ensures only { Told H.tells H.view host.old host.new OnlyTells }
    ensures cause { TellingCause (H.faults host.old) (H.faults host.new) result }
{
    tell_head(alloc, host, found)?;
    tell_recipients(alloc, host, found)
}

/// Tells the lines of the messages that the walk gives.
fn tell_messages<H: Host>(alloc: Global, host: &mut H, walk: &mut Walk) -> Result<Totals, HostError>
    ensures told { IfOk result (λ totals. IsTrue H.tells → (b : Book) → (ms : List Message)
        → Stands (H.view host.old).files b → IsAhead (H.view host.old).files b walk.old ms
        → (totals.messages ≡ counted (length ms)) × (totals.recipients ≡ counted (recipient_count ms))
        × TellsMore (flat_map (lines_in (H.view host.old).files) ms)
        (H.view host.old) (H.view host.new)) }
    ensures front { OnErr result (IsTrue H.tells → (b : Book) → (ms : List Message)
        → Stands (H.view host.old).files b → IsAhead (H.view host.old).files b walk.old ms
        → TellsFront (flat_map (lines_in (H.view host.old).files) ms)
        (H.view host.old) (H.view host.new)) }
    ensures only { Told H.tells H.view host.old host.new OnlyTells }
    ensures cause { TellingCause (H.faults host.old) (H.faults host.new) result }
{
    let mut totals = Totals {
        messages: 0,
        recipients: 0,
    };
    loop {
        let Some(found) = walk.next(host)? else {
            return Ok(totals);
        };
        let recipients = tell_message(alloc, host, &found)?;
        totals = totals.with(recipients);
    }
}

/// Tells the last line.
fn tell_total<H: Host>(alloc: Global, host: &mut H, totals: Totals) -> Result<(), HostError>
    ensures told { OnOk result (Told H.tells H.view host.old host.new
        (TellsMore (total_line totals.messages totals.recipients))) }
    ensures front { OnErr result (Told H.tells H.view host.old host.new
        (TellsFront (total_line totals.messages totals.recipients))) }
    ensures only { Told H.tells H.view host.old host.new OnlyTells }
    ensures cause { TellingCause (H.faults host.old) (H.faults host.new) result }
{
    let mut text = Vec::new(alloc);
    add_total(alloc, &mut text, totals.messages, totals.recipients)?;
    tell_text(host, text.as_slice())
}

/// Tells the listing: of the messages in incoming, active, deferred and hold a line each, with a
/// line for each pending recipient, and at last how many there are. No file is changed.
///
/// Each line is told by itself. In memory are a line, the deferral log of one message and a code for
/// each position in it, and what a reader of pending recipients takes.
pub fn tell_listing<H: Host>(alloc: Global, host: &mut H) -> Result<(), HostError>
    ensures told { OnOk result (IsTrue H.tells → (b : Book) → Stands (H.view host.old).files b
        → TellsMore (listing (H.view host.old).files b) (H.view host.old) (H.view host.new)) }
    ensures front { OnErr result (IsTrue H.tells → (b : Book) → Stands (H.view host.old).files b
        → TellsFront (listing (H.view host.old).files b) (H.view host.old) (H.view host.new)) }
    ensures only { Told H.tells H.view host.old host.new OnlyTells }
    ensures cause { TellingCause (H.faults host.old) (H.faults host.new) result }
{
    let queues = Queues {
        incoming: true,
        active: true,
        deferred: true,
        hold: true,
    };
    let mut walk = Walk::new(alloc, queues)?;
    let totals = tell_messages(alloc, host, &mut walk)?;
    tell_total(alloc, host, totals)
}
