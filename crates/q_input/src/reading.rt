//! A source, read to its end.
ghost use Rattle.std.specs.Prelude.{◌≡◌, IfErr, IfOk};
ghost use Rattle.q_input.specs.Inputs.{HasRead, IsUnread};
ghost use Rattle.q_model.specs.FaultCounts.{Rose};

use crate::error::InputError;
use q_model::Bytes;
use q_stream::{Source, Take};
use std::alloc::Global;

/// How many bytes are taken at once.
const PIECE: usize = 65_536;

/// All bytes that a source has left, of which there may be so many.
pub fn read_all<S: Source>(alloc: Global, source: &mut S, most: usize) -> Result<Bytes, InputError>
    ensures whole { IfOk result (HasRead most (S.left source.old)) }
    ensures error { IfErr result (IsUnread most (S.left source.old)) }
    // It was read without a fault: behind one nothing more is taken.
    ensures faultless { IfOk result (λ _. S.faults source.new ≡ S.faults source.old) }
    ensures failed { IfErr result (λ e. e ≡ InputError.Source
        → Rose (S.faults source.old) (S.faults source.new)) }
{
    let mut piece = [0; PIECE];
    let mut bytes = Vec::new(alloc);
    loop {
        let count = match source.take(&mut piece) {
            Take::Took(count) => count,
            Take::End => return Ok(Bytes::from_vec(bytes)),
            Take::Failed => return Err(InputError::Source),
        };
        if count > most - bytes.len() {
            return Err(InputError::TooLong);
        }
        let Ok(()) = bytes.extend_from_slice(&piece[..count]) else {
            return Err(InputError::NoMemory);
        };
    }
}
