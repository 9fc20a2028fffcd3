//! Lists of ids, one a line.
ghost use Rattle.std.specs.Prelude.{◌≡◌, IfErr, IfOk, IfSome};
ghost use Rattle.q_input.specs.IdLines.{AnswersIds, ids_in, IsRefusedList, Lists};
ghost use Rattle.q_model.specs.FaultCounts.{Rose};
ghost use Rattle.q_trace.specs.PartTexts.{id_of};

use crate::error::IdsError;
use crate::reading::read_all;
use q_model::{Id, Name, Sequence, id_of};
use q_stream::Source;
use q_text::{first_line, is_passed_over, trim};
use std::alloc::Global;

/// How many bytes a list of ids may have: some 3.5 million ids. This program's own.
pub const MOST_ID_BYTES: usize = 67_108_864;

/// The id of which this is the text.
pub fn id_named(text: &[u8]) -> Option<Id>
    ensures { result ≡ id_of text.now }
{
    id_of(Name::new(text)?)
}

/// The ids that the lines of a text name, in their order.
fn ids_in(alloc: Global, bytes: &[u8]) -> Result<Sequence<Id>, IdsError>
    ensures { AnswersIds result (ids_in bytes.now) }
{
    let mut ids = Sequence::new(alloc);
    let mut number = 0;
    let mut rest = bytes;
    while !rest.is_empty() {
        let (line, others) = first_line(rest);
        number += 1;
        if !is_passed_over(line) {
            let Some(id) = id_named(trim(line)) else {
                return Err(IdsError::BadLine { line: number });
            };
            ids.push(id)?;
        }
        rest = others;
    }
    Ok(ids)
}

/// The ids that a source names, one a line, with blanks (spaces and tabs) round each allowed. Lines that
/// are blank or begin with `#` are passed over. An id may stand there more than once.
///
/// `BadLine` names the first line that is no id, `TooLong` comes for more than 67,108,864 bytes.
pub fn read_ids<S: Source>(alloc: Global, source: &mut S) -> Result<Sequence<Id>, IdsError>
    ensures ids { IfOk result (λ ids. IfSome (S.left source.old) (Lists ids)) }
    ensures refused { IfErr result (IsRefusedList (S.left source.old)) }
    // It was read without a fault, or only the fault is told.
    ensures faultless { IfOk result (λ _. S.faults source.new ≡ S.faults source.old) }
    ensures failed { IfErr result (λ e. e ≡ IdsError.Source
        → Rose (S.faults source.old) (S.faults source.new)) }
{
    let bytes = read_all(alloc, source, MOST_ID_BYTES)?;
    ids_in(alloc, bytes.as_slice())
}
