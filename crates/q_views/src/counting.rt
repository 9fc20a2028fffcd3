//! Counting what stands in a queue.
ghost use Rattle.std.specs.Prelude.{◌≡◌, ◌<◌, ◌^◌, IfOk, IsTrue, length, List, ℕ};
ghost use Rattle.q_host.specs.Calls.{Stays};
ghost use Rattle.q_host.specs.Faults.{DiskCause};
ghost use Rattle.q_model.specs.Book.{Book};
ghost use Rattle.q_model.specs.FilesStand.{Stands};
ghost use Rattle.q_model.specs.Message.{Message, pending};
ghost use Rattle.q_pending.specs.Readings.{IsPendingAhead, IsReading, pending_left};
ghost use Rattle.q_views.specs.Tallies.{tally_of, tally_with};
ghost use Rattle.q_walk.specs.Listed.{listed};
ghost use Rattle.q_walk.specs.Walks.{IsFound};

use crate::figures::Tally;
use q_host::{Host, HostError};
use q_listing::reader_of;
use q_model::Queues;
use q_pending::Pending;
use q_walk::{Found, Walk};
use std::alloc::Global;

/// How many recipients the reader gives.
fn count_each<H: Host>(host: &mut H, reader: &mut Pending) -> Result<u32, HostError>
    requires reading { IsTrue H.tells → IsReading (H.view host.old).files reader.old }
    requires few { pending_left reader.old < 2 ^ 32 }
    ensures count { IfOk result (λ count. IsTrue H.tells → (m : Message) → (positions : List ℕ)
        → IsPendingAhead (H.view host.old).files m reader.old positions
        → count ≡ length positions) }
    ensures stays { IsTrue H.tells → Stays (H.view host.old) (H.view host.new) }
    ensures cause { DiskCause (H.faults host.old) (H.faults host.new) result }
{
    let mut count = 0;
    loop {
        let Some(_) = reader.next(host)? else {
            return Ok(count);
        };
        count += 1;
    }
}

/// How many pending recipients a message has that was found.
fn count_pending<H: Host>(alloc: Global, host: &mut H, found: &Found) -> Result<u32, HostError>
    ensures count { IfOk result (λ count. IsTrue H.tells → (m : Message)
        → IsFound (H.view host.old).files m found.now → count ≡ length (pending m)) }
    ensures stays { IsTrue H.tells → Stays (H.view host.old) (H.view host.new) }
    ensures cause { DiskCause (H.faults host.old) (H.faults host.new) result }
{
    match reader_of(alloc, host, found)? {
        Some(mut reader) => count_each(host, &mut reader),
        None => Ok(0),
    }
}

/// The same with a message more that was found, and so many pending recipients.
fn with_found(tally: Tally, found: &Found, recipients: u32) -> Tally
    ensures { result ≡ tally_with tally found.now.place found.now.head.head.arrival recipients }
{
    tally.with(found.place, found.head.head.arrival, recipients)
}

/// How much stands in these queues.
pub(crate) fn tally<H: Host>(
    alloc: Global,
    host: &mut H,
    queues: Queues,
) -> Result<Tally, HostError>
    ensures tally { IfOk result (λ tally. IsTrue H.tells → (b : Book)
        → Stands (H.view host.old).files b → tally ≡ tally_of (listed queues b)) }
    ensures stays { IsTrue H.tells → Stays (H.view host.old) (H.view host.new) }
    ensures cause { DiskCause (H.faults host.old) (H.faults host.new) result }
{
    let mut walk = Walk::new(alloc, queues)?;
    let mut tally = Tally::NONE;
    loop {
        let Some(found) = walk.next(host)? else {
            return Ok(tally);
        };
        let recipients = count_pending(alloc, host, &found)?;
        tally = with_found(tally, &found, recipients);
    }
}
