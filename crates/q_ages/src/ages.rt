//! Telling the table of ages.
ghost use Rattle.std.specs.Prelude.{IfOk, IsTrue, OnErr, OnOk};
ghost use Rattle.q_ages.specs.Adding.{Adds};
ghost use Rattle.q_ages.specs.Counting.{counted};
ghost use Rattle.q_ages.specs.Tables.{MayTellTable, TellsTable};
ghost use Rattle.q_host.specs.Calls.{Stays};
ghost use Rattle.q_host.specs.Faults.{DiskCause};
ghost use Rattle.q_host.specs.View.{Told};
ghost use Rattle.q_model.specs.Book.{Book};
ghost use Rattle.q_model.specs.FilesStand.{Stands};
ghost use Rattle.q_shape.specs.Buckets.{IsShape};
ghost use Rattle.q_shape.specs.Tables.{IsTable};
ghost use Rattle.q_telling.specs.Telling.{OnlyTells, TellingCause};

use crate::counting::count_message;
use q_host::{Host, HostError};
use q_model::{Bytes, Moment};
use q_shape::{AgeTable, TableRequest};
use q_telling::tell_text;
use q_walk::Walk;
use std::alloc::Global;

/// Counts the messages of the queues that are asked for.
fn count_queues<H: Host>(
    alloc: Global,
    host: &mut H,
    now: Moment,
    request: &TableRequest,
    table: &mut AgeTable,
) -> Result<(), HostError>
    ensures counted { OnOk result (IsTrue H.tells → (b : Book) → Stands (H.view host.old).files b
        → Adds (counted request.now.senders now request.now.queues b) table.old table.new) }
    ensures stays { IsTrue H.tells → Stays (H.view host.old) (H.view host.new) }
    ensures cause { DiskCause (H.faults host.old) (H.faults host.new) result }
{
    let mut walk = Walk::new(alloc, request.queues)?;
    loop {
        let Some(found) = walk.next(host)? else {
            return Ok(());
        };
        count_message(alloc, host, now, request.senders, &found, table)?;
    }
}

/// The text of the table.
fn table_text<H: Host>(
    alloc: Global,
    host: &mut H,
    now: Moment,
    request: &TableRequest,
) -> Result<Bytes, HostError>
    requires { IsShape request.now.shape }
    ensures table { IfOk result (λ text. IsTrue H.tells → (b : Book)
        → Stands (H.view host.old).files b → IsTable request.now.shape
        (counted request.now.senders now request.now.queues b) text) }
    ensures stays { IsTrue H.tells → Stays (H.view host.old) (H.view host.new) }
    ensures cause { DiskCause (H.faults host.old) (H.faults host.new) result }
{
    let mut table = AgeTable::new(alloc, &request.shape);
    count_queues(alloc, host, now, request, &mut table)?;
    Ok(table.text(alloc)?)
}

/// Tells the table of the ages of mail in queues at a moment: of each pending recipient under its
/// domain, or of each message with a pending recipient under its sender's. No file is changed.
pub fn tell_ages<H: Host>(
    alloc: Global,
    host: &mut H,
    now: Moment,
    request: &TableRequest,
) -> Result<(), HostError>
    requires { IsShape request.now.shape }
    ensures told { OnOk result (IsTrue H.tells → (b : Book) → Stands (H.view host.old).files b
        → TellsTable now request.now b (H.view host.old) (H.view host.new)) }
    ensures front { OnErr result (IsTrue H.tells → (b : Book) → Stands (H.view host.old).files b
        → MayTellTable now request.now b (H.view host.old) (H.view host.new)) }
    ensures only { Told H.tells H.view host.old host.new OnlyTells }
    ensures cause { TellingCause (H.faults host.old) (H.faults host.new) result }
{
    let text = match table_text(alloc, host, now, request) {
        Ok(text) => text,
        Err(error) => return Err(error),
    };
    tell_text(host, text.as_slice())
}
