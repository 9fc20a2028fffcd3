//! Deferral logs: who was put off since a message came into memory. They are advice for the list of
//! queues, and change no book.
ghost use Rattle.std.specs.Prelude.{◌≡◌, ◌++◌, ◌∷◌, [], IfOk, IsTrue, length, map, OnOk, true};
ghost use Rattle.std.specs.List.{cons_option, list_all};
ghost use Rattle.q_books.specs.HostStands.{KeepsOtherNotes};
ghost use Rattle.q_books.specs.Notes.{HasNotes};
ghost use Rattle.q_engine.specs.Delays.{note_of, notes_for, row_note};
ghost use Rattle.q_files.specs.KeptBooks.{KeepsBook};
ghost use Rattle.q_host.specs.Faults.{DiskCause};
ghost use Rattle.q_model.specs.declared.outcome.Note.{Note as NoteValue};
ghost use Rattle.q_model.specs.declared.spot.Area.TheVariants as areas;
ghost use Rattle.q_model.specs.FailureLog.{is_log_code};
ghost use Rattle.q_model.specs.IdTexts.{id_text};
ghost use Rattle.std.specs.Prelude.{List};

use q_files::store_note;
use q_host::{Host, HostError};
use q_model::{Id, NoMemory, Note, Notes, Outcome};
use std::alloc::Global;

/// Whether a log can hold the code: none, or that of a reply that refuses (RFC 5321, section 4.2).
fn is_log_code(code: u16) -> bool
    ensures { result ≡ is_log_code code }
{
    code == 0 || (400 <= code && code <= 599)
}

/// The notes of a row that is put off without a reply.
pub(crate) fn row_notes(alloc: Global, positions: &[u32]) -> Result<Notes, NoMemory>
    ensures { IfOk result (λ notes. notes ≡ map row_note positions.now) }
{
    let mut notes = Notes::new(alloc);
    for position in positions {
        notes.push(Note {
            position: *position,
            code: 0,
        })?;
    }
    Ok(notes)
}

/// Adds the note of an outcome that puts a recipient off.
fn add_note(notes: &mut Notes, position: u32, outcome: Outcome) -> Result<(), NoMemory>
    ensures { OnOk result (notes.new ≡ notes.old ++ cons_option (note_of position outcome) []) }
{
    if let Outcome::Later(code) = outcome {
        notes.push(Note { position, code })?;
    }
    Ok(())
}

/// The notes of a reply: one for each recipient that it puts off.
pub(crate) fn reply_notes(
    alloc: Global,
    positions: &[u32],
    outcomes: &[Outcome],
) -> Result<Notes, NoMemory>
    requires { length positions.now ≡ length outcomes.now }
    ensures { IfOk result (λ notes. notes ≡ notes_for positions.now outcomes.now) }
{
    let mut notes = Notes::new(alloc);
    for i in 0..positions.len() {
        add_note(&mut notes, positions[i], outcomes[i])?;
    }
    Ok(notes)
}

/// Adds a note to the deferral log of an id. One whose code no log can hold is passed over; no event
/// that is in form has one.
fn note_one<H: Host>(alloc: Global, host: &mut H, id: Id, note: Note) -> Result<(), HostError>
    ensures noted { OnOk result (IsTrue H.tells → is_log_code note.code ≡ true
        → (before : List NoteValue)
        → HasNotes before ((H.view host.old).files areas.Defer (id_text id))
        → HasNotes (before ++ note ∷ []) ((H.view host.new).files areas.Defer (id_text id))) }
    ensures book { KeepsBook H.tells H.view host.old host.new }
    ensures others { IsTrue H.tells → KeepsOtherNotes (id_text id) (H.view host.old) (H.view host.new) }
    ensures cause { DiskCause (H.faults host.old) (H.faults host.new) result }
{
    if is_log_code(note.code) {
        return store_note(alloc, host, id, note);
    }
    Ok(())
}

/// Adds notes to the deferral log of an id, in order.
pub(crate) fn note_all<H: Host>(
    alloc: Global,
    host: &mut H,
    id: Id,
    notes: &[Note],
) -> Result<(), HostError>
    ensures noted { OnOk result (IsTrue H.tells
        → list_all (λ n. is_log_code n.code) notes.now ≡ true → (before : List NoteValue)
        → HasNotes before ((H.view host.old).files areas.Defer (id_text id))
        → HasNotes (before ++ notes.now) ((H.view host.new).files areas.Defer (id_text id))) }
    ensures book { KeepsBook H.tells H.view host.old host.new }
    ensures others { IsTrue H.tells → KeepsOtherNotes (id_text id) (H.view host.old) (H.view host.new) }
    ensures cause { DiskCause (H.faults host.old) (H.faults host.new) result }
{
    for note in notes {
        note_one(alloc, host, id, *note)?;
    }
    Ok(())
}
