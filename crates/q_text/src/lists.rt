//! Lists of values: the words of a text, if each is one.
ghost use Rattle.std.specs.Prelude.{◌≡◌, IfOk};
ghost use Rattle.q_numbers.specs.Numbers.{number32_of};
ghost use Rattle.q_numbers.specs.Pieces.{one_or_more, words_in};
ghost use Rattle.q_text.specs.ValueTexts.{outcome_of, plain_of, receiver_of};

use crate::values::{read_outcome, read_plain, read_receiver};
use q_model::{Addresses, NoMemory, Outcomes, Positions, SiteState};
use q_numbers::{first_word, read_number32};
use std::alloc::Global;

/// The recipients that a text lists by their addresses alone, at least one.
pub fn read_addresses(alloc: Global, text: &[u8]) -> Result<Option<Addresses>, NoMemory>
    ensures { IfOk result (λ list. list ≡ one_or_more plain_of (words_in text.now)) }
{
    let mut list = Addresses::new(alloc);
    let mut rest = text;
    loop {
        let (word, more) = first_word(rest);
        let Some(receiver) = read_plain(word) else {
            return Ok(None);
        };
        list.push(receiver)?;
        let Some(others) = more else {
            return Ok(Some(list));
        };
        rest = others;
    }
}

/// The recipients that a text lists, at least one.
pub fn read_receivers(alloc: Global, text: &[u8]) -> Result<Option<Addresses>, NoMemory>
    ensures { IfOk result (λ list. list ≡ one_or_more receiver_of (words_in text.now)) }
{
    let mut list = Addresses::new(alloc);
    let mut rest = text;
    loop {
        let (word, more) = first_word(rest);
        let Some(receiver) = read_receiver(word) else {
            return Ok(None);
        };
        list.push(receiver)?;
        let Some(others) = more else {
            return Ok(Some(list));
        };
        rest = others;
    }
}

/// The positions that a text lists, at least one.
pub fn read_positions(alloc: Global, text: &[u8]) -> Result<Option<Positions>, NoMemory>
    ensures { IfOk result (λ list. list ≡ one_or_more number32_of (words_in text.now)) }
{
    let mut list = Positions::new(alloc);
    let mut rest = text;
    loop {
        let (word, more) = first_word(rest);
        let Some(position) = read_number32(word, 0, u32::MAX) else {
            return Ok(None);
        };
        list.push(position)?;
        let Some(others) = more else {
            return Ok(Some(list));
        };
        rest = others;
    }
}

/// The outcomes that a text lists, at least one, for a site in this state.
pub fn read_outcomes(
    alloc: Global,
    text: &[u8],
    state: SiteState,
) -> Result<Option<Outcomes>, NoMemory>
    ensures { IfOk result (λ list. list ≡ one_or_more (outcome_of state) (words_in text.now)) }
{
    let mut list = Outcomes::new(alloc);
    let mut rest = text;
    loop {
        let (word, more) = first_word(rest);
        let Some(outcome) = read_outcome(word, state) else {
            return Ok(None);
        };
        list.push(outcome)?;
        let Some(others) = more else {
            return Ok(Some(list));
        };
        rest = others;
    }
}
