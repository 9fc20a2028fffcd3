//! The deferral log of a message: who was put off since the message came into memory.
//!
//! The log is advice for lists of queues. It is never synced, since a crash may lose it whole.
ghost use Rattle.std.specs.Prelude.{◌≡◌, ◌<◌, ◌^◌, ◌-◌, ◌∷◌, ◌++◌, [], length, List, None, Some, true, unwrap_or, IfOk, IsTrue, OnOk};
ghost use Rattle.q_host.specs.Faults.{DiskCause};
ghost use Rattle.q_host.specs.Files.{written};
ghost use Rattle.q_host.specs.Steps.{SameBut};
ghost use Rattle.q_host.specs.View.{Goes, now, Told};
ghost use Rattle.q_model.specs.declared.outcome.Note.{Note};
ghost use Rattle.q_model.specs.declared.spot.Area.TheVariants as areas;
ghost use Rattle.q_model.specs.FailureLog.{is_log_code, note_bytes};
ghost use Rattle.q_model.specs.IdTexts.{id_text};
ghost use Rattle.q_store.specs.Stores.{OneFile};
ghost use Rattle.q_books.specs.HostStands.{KeepsOtherNotes};
ghost use Rattle.q_books.specs.Notes.{HasNotes};
ghost use Rattle.q_files.specs.KeptBooks.{KeepsBook};

use crate::dropping::drop_file;
use q_host::{Host, HostError};
use q_model::{Area, Id, Name, NoMemory, Note, id_name};
use std::alloc::Global;

/// The gate of a record that counts, and the gate behind the last one.
const OPEN: u8 = b'O';

const CLOSED: u8 = 0;

/// The reason of a note.
const LATER: u8 = b'L';

/// The open record of a note, and a closed gate behind it.
fn gated(alloc: Global, note: Note) -> Result<Vec<u8>, NoMemory>
    ensures written { IfOk result (λ bytes. bytes.items ≡ note_bytes note ++ 0 ∷ []) }
    ensures fits { note.position < 2 ^ 32 }
{
    let mut bytes = Vec::new(alloc);
    bytes.push(OPEN)?;
    bytes.push(LATER)?;
    bytes.extend_from_slice(&note.code.to_be_bytes())?;
    bytes.extend_from_slice(&note.position.to_be_bytes())?;
    bytes.push(CLOSED)?;
    Ok(bytes)
}

/// The offset of a log's last byte, which is its closed gate. A log that is missing is made, empty.
fn gate_at<H: Host>(host: &mut H, name: Name) -> Result<u64, HostError>
    ensures at { IfOk result (λ at. IsTrue H.tells
        → at ≡ length (unwrap_or ((H.view host.old).files areas.Defer name) []) - 1) }
    ensures there { OnOk result (IsTrue H.tells → (H.view host.new).files areas.Defer name
        ≡ Some (unwrap_or ((H.view host.old).files areas.Defer name) [])) }
    ensures reads { IsTrue H.tells
        → OneFile areas.Defer name (now (H.view host.old)) (now (H.view host.new)) }
    ensures goes { Told H.tells H.view host.old host.new
        (Goes (OneFile areas.Defer name) (OneFile areas.Defer name)) }
    ensures cause { DiskCause (H.faults host.old) (H.faults host.new) result }
{
    if host.has(Area::Defer, name)? {
        let size = host.size(Area::Defer, name)?;
        return Ok(size.saturating_sub(1));
    }
    host.create(Area::Defer, name)?;
    Ok(0)
}

/// Writes bytes over the closed gate of a log, in one write.
fn append<H: Host>(host: &mut H, name: Name, bytes: &[u8]) -> Result<(), HostError>
    ensures written { OnOk result (IsTrue H.tells
        → let log = unwrap_or ((H.view host.old).files areas.Defer name) [] in
        (H.view host.new).files areas.Defer name ≡ Some (written (length log - 1) bytes.now log)) }
    ensures reads { IsTrue H.tells
        → OneFile areas.Defer name (now (H.view host.old)) (now (H.view host.new)) }
    ensures goes { Told H.tells H.view host.old host.new
        (Goes (OneFile areas.Defer name) (OneFile areas.Defer name)) }
    ensures cause { DiskCause (H.faults host.old) (H.faults host.new) result }
{
    let at = gate_at(host, name)?;
    host.write_at(Area::Defer, name, at, bytes)
}

/// Adds a note to the deferral log of an id, which is made where it is missing. It is an error to
/// call it with a code that is neither 0 nor 400 to 599, or where the log is of another form than
/// these calls give it: what it says then is not known.
pub fn store_note<H: Host>(alloc: Global, host: &mut H, id: Id, note: Note) -> Result<(), HostError>
    requires { is_log_code note.code ≡ true }
    // The log reads as its notes and this one behind them, and has the form to its last byte.
    ensures noted { OnOk result (IsTrue H.tells → (notes : List Note)
        → HasNotes notes ((H.view host.old).files areas.Defer (id_text id))
        → HasNotes (notes ++ note ∷ []) ((H.view host.new).files areas.Defer (id_text id))) }

    // Whatever it answers, nothing else changed.
    ensures book { KeepsBook H.tells H.view host.old host.new }
    ensures others { IsTrue H.tells
        → SameBut areas.Defer (id_text id) (H.view host.old).files (H.view host.new).files }
    ensures notes { IsTrue H.tells
        → KeepsOtherNotes (id_text id) (H.view host.old) (H.view host.new) }
    ensures cause { DiskCause (H.faults host.old) (H.faults host.new) result }
{
    let bytes = gated(alloc, note)?;
    append(host, id_name(id), &bytes)
}

/// Takes the deferral log of an id away, where there is one.
pub fn drop_notes<H: Host>(host: &mut H, id: Id) -> Result<(), HostError>
    ensures gone { OnOk result (IsTrue H.tells
        → (H.view host.new).files areas.Defer (id_text id) ≡ None) }

    // Whatever it answers, nothing else changed.
    ensures book { KeepsBook H.tells H.view host.old host.new }
    ensures others { IsTrue H.tells
        → SameBut areas.Defer (id_text id) (H.view host.old).files (H.view host.new).files }
    ensures notes { IsTrue H.tells
        → KeepsOtherNotes (id_text id) (H.view host.old) (H.view host.new) }
    ensures cause { DiskCause (H.faults host.old) (H.faults host.new) result }
{
    drop_file(host, Area::Defer, id_name(id))
}
