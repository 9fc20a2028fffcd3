//! A message that is given up.
ghost use Rattle.std.specs.Prelude.{◌≡◌, false, IfOk, IfSome, is_some, IsSomeAnd, IsTrue, List, OnOk, Some, true, ℕ};
ghost use Rattle.q_books.specs.HostStands.{HostStands};
ghost use Rattle.q_host.specs.Calls.{Stays};
ghost use Rattle.q_host.specs.Faults.{DiskCause};
ghost use Rattle.q_model.specs.Book.{Book, message_of};
ghost use Rattle.q_model.specs.Message.{Message, pending};
ghost use Rattle.q_model.specs.SpoolFiles.{IsPlace};
ghost use Rattle.q_pending.specs.Readings.{IsPendingAhead, IsReading};
ghost use Rattle.q_super.specs.Deeds.{expired, failing};
ghost use Rattle.q_super.specs.Finding.{IsSource};
ghost use Rattle.q_super.specs.GivingUp.{IsFileOf, IsQueueFile, MayFail};
ghost use Rattle.q_super.specs.Moves.{is_file, stands_there};
ghost use Rattle.q_super.specs.Plays.{HaltsDeeds, OnBook, PlaysDeeds};
ghost use Rattle.q_super.specs.Refusals.{EachError, HostCause};
ghost use Rattle.q_super.specs.declared.acts.Act.TheVariants as acts;

use crate::acts::{Act, word_of};
use crate::lines::tell_line;
use crate::moving::{is_there, move_file};
use crate::standing::Standing;
use q_books::file_spot;
use q_files::store_failure;
use q_host::{Host, HostError};
use q_message::{MessageError, read_head};
use q_model::{Failure, Id, Place, Positions, Why};
use q_pending::Pending;
use std::alloc::Global;

/// A reader of the pending recipients of the message whose file this is. `None` where no queue file
/// stands there.
pub(crate) fn pending_of<H: Host>(
    alloc: Global,
    host: &mut H,
    file: Standing,
) -> Result<Option<Pending>, HostError>
    requires { IsPlace file.place }
    ensures there { IfOk result (λ o. IfSome o (λ _. IsTrue H.tells
        → is_file (H.view host.old).files file ≡ true)) }
    ensures reading { IfOk result (λ o. IfSome o (λ pending. IsTrue H.tells
        → IsReading (H.view host.old).files pending)) }
    ensures message { IfOk result (λ o. IfSome o (λ _. IsTrue H.tells
        → IsQueueFile (H.view host.old).files file)) }
    ensures ahead { IfOk result (λ o. IsTrue H.tells → (m : Message)
        → IsFileOf (H.view host.old).files file m
        → IsSomeAnd o (λ p. IsPendingAhead (H.view host.old).files m p (pending m))) }
    ensures stays { IsTrue H.tells → Stays (H.view host.old) (H.view host.new) }
    ensures cause { DiskCause (H.faults host.old) (H.faults host.new) result }
{
    if !is_there(host, file)? {
        return Ok(None);
    }
    let spot = file_spot(file.place, file.id);
    match read_head(host, spot) {
        Ok(head) => Ok(Some(Pending::new(alloc, host, spot, file.id, &head)?)),
        Err(MessageError::Disk) => Err(HostError::Disk),
        Err(MessageError::NoMemory) => Err(HostError::NoMemory),
        Err(MessageError::NotAMessage { .. }) => Ok(None),
    }
}

/// The positions of all recipients that the reader gives.
fn positions_of<H: Host>(
    alloc: Global,
    host: &mut H,
    reader: &mut Pending,
) -> Result<Positions, HostError>
    requires { IsTrue H.tells → IsReading (H.view host.old).files reader.old }
    ensures positions { IfOk result (λ found. IsTrue H.tells → (m : Message)
        → (positions : List ℕ) → IsPendingAhead (H.view host.old).files m reader.old positions
        → found ≡ positions) }
    ensures stays { IsTrue H.tells → Stays (H.view host.old) (H.view host.new) }
    ensures cause { DiskCause (H.faults host.old) (H.faults host.new) result }
{
    let mut positions = Positions::new(alloc);
    loop {
        let Some(taken) = reader.next(host)? else {
            return Ok(positions);
        };
        positions.push(taken.position)?;
    }
}

/// The positions of the pending recipients of the message whose file this is. `None` where no queue
/// file stands there.
fn pending_positions<H: Host>(
    alloc: Global,
    host: &mut H,
    file: Standing,
) -> Result<Option<Positions>, HostError>
    requires { IsPlace file.place }
    ensures there { IfOk result (λ o. IfSome o (λ _. IsTrue H.tells
        → is_file (H.view host.old).files file ≡ true)) }
    ensures positions { IfOk result (λ o. IsTrue H.tells → (m : Message)
        → IsFileOf (H.view host.old).files file m → o ≡ Some (pending m)) }
    ensures message { IfOk result (λ o. IfSome o (λ _. IsTrue H.tells
        → IsQueueFile (H.view host.old).files file)) }
    ensures stays { IsTrue H.tells → Stays (H.view host.old) (H.view host.new) }
    ensures cause { DiskCause (H.faults host.old) (H.faults host.new) result }
{
    let Some(mut reader) = pending_of(alloc, host, file)? else {
        return Ok(None);
    };
    Ok(Some(positions_of(alloc, host, &mut reader)?))
}

/// Stores that these recipients of a message in active are given up, one behind another.
fn give_up<H: Host>(alloc: Global, host: &mut H, id: Id, positions: &[u32]) -> Result<(), HostError>
    ensures ok { OnOk result (IsTrue H.tells → (b : Book) → HostStands (H.view host.old) b
        → MayFail b id positions.now
        → PlaysDeeds b (failing id positions.now) (H.view host.old) (H.view host.new)) }
    ensures err { EachError result (λ error. IsTrue H.tells → (b : Book)
        → HostStands (H.view host.old) b → MayFail b id positions.now
        → HaltsDeeds b (failing id positions.now) error (H.view host.old) (H.view host.new)) }
    ensures cause { DiskCause (H.faults host.old) (H.faults host.new) result }
{
    for position in positions {
        let failure = Failure {
            position: *position,
            why: Why::Expired,
            code: 0,
        };
        store_failure(alloc, host, id, failure)?;
    }
    Ok(())
}

/// Takes a message to active, gives its pending recipients up, and tells its line. `false` where no
/// queue file stands there; nothing is done then.
pub(crate) fn expire<H: Host>(
    alloc: Global,
    host: &mut H,
    file: Standing,
) -> Result<bool, HostError>
    requires { IsSource acts.Expire file.id file.place }
    ensures ok { IfOk result (λ done. IsTrue H.tells → OnBook (H.view host.old) (λ b.
        stands_there b file ≡ true → (done ≡ is_some (message_of b file.id))
        × PlaysDeeds b (expired b file.id) (H.view host.old) (H.view host.new))) }
    ensures none { IfOk result (λ done. done ≡ false → IsTrue H.tells
        → Stays (H.view host.old) (H.view host.new)) }
    ensures err { EachError result (λ error. IsTrue H.tells → OnBook (H.view host.old) (λ b.
        stands_there b file ≡ true
        → HaltsDeeds b (expired b file.id) error (H.view host.old) (H.view host.new))) }
    ensures cause { HostCause (H.faults host.old) (H.faults host.new) result }
{
    // Which are pending is read before the message moves, since the reader goes by the file's place.
    let Some(positions) = pending_positions(alloc, host, file)? else {
        return Ok(false);
    };
    move_file(host, file, Place::Active)?;
    give_up(alloc, host, file.id, positions.as_slice())?;
    tell_line(alloc, host, word_of(Act::Expire), file.id)?;
    Ok(true)
}
