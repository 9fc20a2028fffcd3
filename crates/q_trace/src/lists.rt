//! The lists at the ends of lines.
ghost use Rattle.q_trace.specs.Answers.{AnswersText};
ghost use Rattle.q_trace.specs.PartTexts.{addresses_of, outcomes_of, positions_of};

use crate::error::EntryError;
use crate::parts::spaces;
use q_model::{Addresses, MOST_RECIPIENTS, Outcomes, Positions, SiteState};
use q_text::{read_addresses, read_outcomes, read_positions};
use std::alloc::Global;

/// 1 to 50,000 recipients, by their addresses.
pub(crate) fn addresses(alloc: Global, text: &[u8]) -> Result<Addresses, EntryError>
    ensures { AnswersText result (addresses_of text.now) }
{
    if spaces(text) >= MOST_RECIPIENTS as usize {
        return Err(EntryError::BadEntry);
    }
    read_addresses(alloc, text)?.ok_or(EntryError::BadEntry)
}

/// At least one position.
pub(crate) fn positions(alloc: Global, text: &[u8]) -> Result<Positions, EntryError>
    ensures { AnswersText result (positions_of text.now) }
{
    read_positions(alloc, text)?.ok_or(EntryError::BadEntry)
}

/// At least one outcome at a site in this state.
pub(crate) fn outcomes(alloc: Global, text: &[u8], state: SiteState) -> Result<Outcomes, EntryError>
    ensures { AnswersText result (outcomes_of state text.now) }
{
    read_outcomes(alloc, text, state)?.ok_or(EntryError::BadEntry)
}
