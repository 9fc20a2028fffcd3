//! Reading the records of a log.
ghost use Rattle.std.specs.Prelude.{◌≡◌, true, IfOk};
ghost use Rattle.q_model.specs.FailureLog.{log_notes, log_records};
ghost use Rattle.q_logfile.specs.Codes.{are_log_codes};

use crate::record::{SIZE, failure, note};
use q_model::{NoMemory, Notes, Records};
use std::alloc::Global;

/// The records of a failure log, from the front as far as each is whole, open and lawful, whatever
/// their positions.
pub fn records(alloc: Global, bytes: &[u8]) -> Result<Records, NoMemory>
    ensures read { IfOk result (λ records. records ≡ log_records bytes.now) }
    // They can be written again.
    ensures lawful { IfOk result (λ records. are_log_codes records ≡ true) }
{
    let mut records = Records::new(alloc);
    for chunk in bytes.chunks_exact(SIZE) {
        let Some(failure) = failure(chunk) else {
            break;
        };
        records.push(failure)?;
    }
    Ok(records)
}

/// The records of a deferral log, in the same way.
pub fn notes(alloc: Global, bytes: &[u8]) -> Result<Notes, NoMemory>
    ensures { IfOk result (λ notes. notes ≡ log_notes bytes.now) }
{
    let mut notes = Notes::new(alloc);
    for chunk in bytes.chunks_exact(SIZE) {
        let Some(note) = note(chunk) else {
            break;
        };
        notes.push(note)?;
    }
    Ok(notes)
}
