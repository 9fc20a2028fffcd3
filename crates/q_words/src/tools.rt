//! The words of queue tools.
ghost use Rattle.std.specs.Prelude.{◌≡◌, codes, is_none, map, Some, string_bytes};
ghost use Rattle.clap.specs.Words.{found_of, matches_of, rows_of};
ghost use Rattle.q_trace.specs.PartTexts.{hop_of};
ghost use Rattle.q_words.specs.Requests.{command_of, IsRequest};
ghost use Rattle.q_words.specs.Tools.{chosen_in, chosen_of, domain_in, IsChosen, IsDomain, IsTarget, target_in, target_of};
ghost use Rattle.q_words.specs.Usages.{is_expire_usage, is_flush_usage, is_target_usage, is_tool_usage, IsAnswer};

use crate::arguments::first_of;
use crate::commands::{domain_matches, id_matches};
use crate::error::{WordsError, refused};
use crate::looking::read_look;
use crate::request::Request;
use crate::tool::{Chosen, Target, ToolRequest};
use clap::ArgMatches;
use q_input::id_named;
use q_model::Hop;
use std::alloc::Global;

/// The messages that a word names, if it isn't `ALL`.
fn chosen_of(word: &str) -> Option<Chosen>
    ensures { result ≡ chosen_of word.now }
{
    if word == "-" {
        return Some(Chosen::Listed);
    }
    match id_named(word.as_bytes()) {
        Some(id) => Some(Chosen::One(id)),
        None => None,
    }
}

fn target_of(word: &str) -> Option<Target>
    ensures { result ≡ target_of word.now }
{
    if word == "ALL" {
        return Some(Target::All);
    }
    match chosen_of(word) {
        Some(chosen) => Some(Target::Only(chosen)),
        None => None,
    }
}

fn target_in<'a>(matches: &ArgMatches<'a>) -> Option<Target>
    ensures { result ≡ target_in (rows_of (found_of matches.now)) }
{
    match first_of(matches, "id") {
        Some(word) => target_of(word),
        None => None,
    }
}

fn chosen_in<'a>(matches: &ArgMatches<'a>) -> Option<Chosen>
    ensures { result ≡ chosen_in (rows_of (found_of matches.now)) }
{
    match first_of(matches, "id") {
        Some(word) => chosen_of(word),
        None => None,
    }
}

fn domain_in<'a>(matches: &ArgMatches<'a>) -> Option<Hop>
    ensures { result ≡ domain_in (rows_of (found_of matches.now)) }
{
    match first_of(matches, "domain") {
        Some(word) => Hop::new(word.as_bytes()),
        None => None,
    }
}

fn some_target<'a>(matches: &ArgMatches<'a>) -> Result<Target, WordsError>
    ensures { IsAnswer (is_none (target_in (rows_of (found_of matches.now))))
        (λ target. target_in (rows_of (found_of matches.now)) ≡ Some target) result }
{
    match target_in(matches) {
        Some(target) => Ok(target),
        None => Err(WordsError::NoTarget),
    }
}

/// The messages that the words of this command name, the command in front.
fn read_target(alloc: Global, name: &str, words: &[String]) -> Result<Target, WordsError>
    ensures { IsAnswer (is_target_usage name.now (map string_bytes words.now))
        (IsTarget name.now (map string_bytes words.now)) result }
{
    match id_matches(alloc, name, words) {
        Ok(matches) => some_target(&matches),
        Err(error) => Err(refused(error)),
    }
}

fn some_chosen<'a>(matches: &ArgMatches<'a>) -> Result<Chosen, WordsError>
    ensures { IsAnswer (is_none (chosen_in (rows_of (found_of matches.now))))
        (λ chosen. chosen_in (rows_of (found_of matches.now)) ≡ Some chosen) result }
{
    match chosen_in(matches) {
        Some(chosen) => Ok(chosen),
        None => Err(WordsError::NoChosen),
    }
}

/// The messages that the words of `expire` name, the command in front.
fn read_chosen(alloc: Global, words: &[String]) -> Result<Chosen, WordsError>
    ensures { IsAnswer (is_expire_usage (map string_bytes words.now))
        (IsChosen (map string_bytes words.now)) result }
{
    match id_matches(alloc, "expire", words) {
        Ok(matches) => some_chosen(&matches),
        Err(error) => Err(refused(error)),
    }
}

fn some_domain<'a>(matches: &ArgMatches<'a>) -> Result<Hop, WordsError>
    ensures { IsAnswer (is_none (domain_in (rows_of (found_of matches.now))))
        (λ domain. domain_in (rows_of (found_of matches.now)) ≡ Some domain) result }
{
    match domain_in(matches) {
        Some(domain) => Ok(domain),
        None => Err(WordsError::NoDomain),
    }
}

/// The domain that the words of `flush` name, the command in front.
fn read_domain(alloc: Global, words: &[String]) -> Result<Hop, WordsError>
    ensures { IsAnswer (is_flush_usage (map string_bytes words.now))
        (IsDomain (map string_bytes words.now)) result }
{
    match domain_matches(alloc, words) {
        Ok(matches) => some_domain(&matches),
        Err(error) => Err(refused(error)),
    }
}

/// What the words of a queue tool, or of a command that looks, ask for, the command in front.
pub(crate) fn read_tool(
    alloc: Global,
    command: &[u8],
    words: &[String],
) -> Result<Request, WordsError>
    requires { command_of (map string_bytes words.now) ≡ Some command.now }
    ensures { IsAnswer (is_tool_usage (map string_bytes words.now) command.now)
        (IsRequest (map string_bytes words.now)) result }
{
    if command == b"hold".as_slice() {
        let target = read_target(alloc, "hold", words)?;
        return Ok(Request::Tool(ToolRequest::Hold(target)));
    }
    if command == b"release".as_slice() {
        let target = read_target(alloc, "release", words)?;
        return Ok(Request::Tool(ToolRequest::Release(target)));
    }
    if command == b"requeue".as_slice() {
        let target = read_target(alloc, "requeue", words)?;
        return Ok(Request::Tool(ToolRequest::Requeue(target)));
    }
    if command == b"expire".as_slice() {
        let chosen = read_chosen(alloc, words)?;
        return Ok(Request::Tool(ToolRequest::Expire(chosen)));
    }
    if command == b"flush".as_slice() {
        let domain = read_domain(alloc, words)?;
        return Ok(Request::Tool(ToolRequest::Flush(domain)));
    }
    read_look(alloc, command, words)
}
