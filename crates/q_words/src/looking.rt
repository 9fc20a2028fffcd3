//! The words of commands that look: at one message, at routes, or with no word at all.
ghost use Rattle.std.specs.Prelude.{◌≡◌, codes, IfOk, is_none, map, Some, string_bytes};
ghost use Rattle.clap.specs.Words.{found_of, matches_of, rows_of};
ghost use Rattle.q_numbers.specs.Pieces.{each_some, one_or_more};
ghost use Rattle.q_text.specs.ValueTexts.{address_of};
ghost use Rattle.q_words.specs.Looks.{addresses_in, id_in, IsOne, IsRoute};
ghost use Rattle.q_words.specs.Requests.{command_of, IsRequest};
ghost use Rattle.q_words.specs.Usages.{is_look_usage, is_route_usage, is_show_usage, IsAnswer};

use crate::arguments::first_of;
use crate::commands::{id_matches, route_matches};
use crate::error::{WordsError, refused};
use crate::plain::read_plain;
use crate::request::Request;
use clap::ArgMatches;
use q_input::id_named;
use q_model::{Address, Id, NoMemory, Sequence};
use std::alloc::Global;

fn id_in<'a>(matches: &ArgMatches<'a>) -> Option<Id>
    ensures { result ≡ id_in (rows_of (found_of matches.now)) }
{
    match first_of(matches, "id") {
        Some(word) => id_named(word.as_bytes()),
        None => None,
    }
}

fn some_id<'a>(matches: &ArgMatches<'a>) -> Result<Id, WordsError>
    ensures { IsAnswer (is_none (id_in (rows_of (found_of matches.now))))
        (λ id. id_in (rows_of (found_of matches.now)) ≡ Some id) result }
{
    match id_in(matches) {
        Some(id) => Ok(id),
        None => Err(WordsError::NoId),
    }
}

/// The message that the words of `show` name, the command in front.
fn read_id(alloc: Global, words: &[String]) -> Result<Id, WordsError>
    ensures { IsAnswer (is_show_usage (map string_bytes words.now))
        (IsOne (map string_bytes words.now)) result }
{
    match id_matches(alloc, "show", words) {
        Ok(matches) => some_id(&matches),
        Err(error) => Err(refused(error)),
    }
}

/// The addresses that the words are, if each is one.
fn addresses(alloc: Global, words: &[&str]) -> Result<Option<Sequence<Address>>, NoMemory>
    ensures { IfOk result (λ list. list ≡ each_some address_of (map (λ w. w.now) words.now)) }
{
    let mut list = Sequence::new(alloc);
    for word in words {
        let Some(address) = Address::new(word.as_bytes()) else {
            return Ok(None);
        };
        list.push(address)?;
    }
    Ok(Some(list))
}

/// The same of at least one word.
fn some_addresses(alloc: Global, words: &[&str]) -> Result<Option<Sequence<Address>>, NoMemory>
    ensures { IfOk result (λ list. list ≡ one_or_more address_of (map (λ w. w.now) words.now)) }
{
    if words.is_empty() {
        return Ok(None);
    }
    addresses(alloc, words)
}

fn addresses_in<'a>(
    alloc: Global,
    matches: &ArgMatches<'a>,
) -> Result<Option<Sequence<Address>>, NoMemory>
    ensures { IfOk result (λ list. list ≡ addresses_in (rows_of (found_of matches.now))) }
{
    match matches.get_strs("address") {
        Some(words) => some_addresses(alloc, words),
        None => Ok(None),
    }
}

fn route_in<'a>(alloc: Global, matches: &ArgMatches<'a>) -> Result<Sequence<Address>, WordsError>
    ensures { IsAnswer (is_none (addresses_in (rows_of (found_of matches.now))))
        (λ list. addresses_in (rows_of (found_of matches.now)) ≡ Some list) result }
{
    let Some(list) = addresses_in(alloc, matches)? else {
        return Err(WordsError::NoRoute);
    };
    Ok(list)
}

/// The addresses that the words of `route` name, the command in front.
fn read_route(alloc: Global, words: &[String]) -> Result<Sequence<Address>, WordsError>
    ensures { IsAnswer (is_route_usage (map string_bytes words.now))
        (IsRoute (map string_bytes words.now)) result }
{
    match route_matches(alloc, words) {
        Ok(matches) => route_in(alloc, &matches),
        Err(error) => Err(refused(error)),
    }
}

/// What the words of a command that looks ask for, the command in front.
pub(crate) fn read_look(
    alloc: Global,
    command: &[u8],
    words: &[String],
) -> Result<Request, WordsError>
    requires { command_of (map string_bytes words.now) ≡ Some command.now }
    ensures { IsAnswer (is_look_usage (map string_bytes words.now) command.now)
        (IsRequest (map string_bytes words.now)) result }
{
    if command == b"json".as_slice() {
        return read_plain(alloc, "json", words, Request::Json);
    }
    if command == b"status".as_slice() {
        return read_plain(alloc, "status", words, Request::Status);
    }
    if command == b"params".as_slice() {
        return read_plain(alloc, "params", words, Request::Params);
    }
    if command == b"check".as_slice() {
        return read_plain(alloc, "check", words, Request::Check);
    }
    if command == b"audit".as_slice() {
        return read_plain(alloc, "audit", words, Request::Audit);
    }
    if command == b"show".as_slice() {
        let id = read_id(alloc, words)?;
        return Ok(Request::Show(id));
    }
    if command == b"route".as_slice() {
        let list = read_route(alloc, words)?;
        return Ok(Request::Route(list));
    }
    Err(WordsError::NoCommand)
}
