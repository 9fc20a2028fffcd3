//! The words of `submit`.
ghost use Rattle.std.specs.Prelude.{◌≡◌, IfOk, map, string_bytes};
ghost use Rattle.clap.specs.Words.{found_of, matches_of, rows_of};
ghost use Rattle.q_numbers.specs.Pieces.{each_some, one_or_more};
ghost use Rattle.q_text.specs.ValueTexts.{plain_of};
ghost use Rattle.q_words.specs.Commands.{submit_app};
ghost use Rattle.q_words.specs.Requests.{IsSubmit, sender_in, to_in};
ghost use Rattle.q_words.specs.Usages.{has_no_address, is_submit_usage, IsAnswer};

use crate::arguments::first_of;
use crate::commands::submit_matches;
use crate::error::{WordsError, refused};
use crate::request::Request;
use clap::ArgMatches;
use q_model::{Address, Addresses, NoMemory};
use q_text::{read_plain, read_sender};
use std::alloc::Global;

fn sender_in<'a>(matches: &ArgMatches<'a>) -> Option<Option<Address>>
    ensures { result ≡ sender_in (rows_of (found_of matches.now)) }
{
    match first_of(matches, "sender") {
        Some(word) => read_sender(word.as_bytes()),
        None => None,
    }
}

/// The recipients whose addresses the words are, if each is one.
fn addresses(alloc: Global, words: &[&str]) -> Result<Option<Addresses>, NoMemory>
    ensures { IfOk result (λ list. list ≡ each_some plain_of (map (λ w. w.now) words.now)) }
{
    let mut list = Addresses::new(alloc);
    for word in words {
        let Some(receiver) = read_plain(word.as_bytes()) else {
            return Ok(None);
        };
        list.push(receiver)?;
    }
    Ok(Some(list))
}

/// The same of at least one word.
fn some_addresses(alloc: Global, words: &[&str]) -> Result<Option<Addresses>, NoMemory>
    ensures { IfOk result (λ list. list ≡ one_or_more plain_of (map (λ w. w.now) words.now)) }
{
    if words.is_empty() {
        return Ok(None);
    }
    addresses(alloc, words)
}

fn to_in<'a>(alloc: Global, matches: &ArgMatches<'a>) -> Result<Option<Addresses>, NoMemory>
    ensures { IfOk result (λ list. list ≡ to_in (rows_of (found_of matches.now))) }
{
    match matches.get_strs("to") {
        Some(words) => some_addresses(alloc, words),
        None => Ok(None),
    }
}

/// The submission that the words ask for.
fn submission_in<'a>(alloc: Global, matches: &ArgMatches<'a>) -> Result<Request, WordsError>
    ensures { IsAnswer (has_no_address (rows_of (found_of matches.now)))
        (IsSubmit (rows_of (found_of matches.now))) result }
{
    let Some(sender) = sender_in(matches) else {
        return Err(WordsError::NoAddress);
    };
    let Some(to) = to_in(alloc, matches)? else {
        return Err(WordsError::NoAddress);
    };
    Ok(Request::Submit { sender, to })
}

/// The submission that the words of `submit` ask for, the command in front.
pub(crate) fn read_submission(alloc: Global, words: &[String]) -> Result<Request, WordsError>
    ensures { IsAnswer (is_submit_usage (map string_bytes words.now))
        (IsSubmit (matches_of submit_app (map string_bytes words.now))) result }
{
    match submit_matches(alloc, words) {
        Ok(matches) => submission_in(alloc, &matches),
        Err(error) => Err(refused(error)),
    }
}
