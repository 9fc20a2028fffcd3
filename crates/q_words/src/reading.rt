//! Reading the words of a command.
ghost use Rattle.std.specs.Prelude.{◌≡◌, map, Some, string_bytes};
ghost use Rattle.clap.specs.Words.{matches_of};
ghost use Rattle.q_words.specs.Commands.{qshape_app};
ghost use Rattle.q_words.specs.Requests.{command_of, IsQshape, IsRequest};
ghost use Rattle.q_words.specs.Usages.{is_qshape_usage, is_usage, is_usage_of};
ghost use Rattle.q_words.specs.Usages.{IsAnswer};

use crate::draining::read_drain;
use crate::error::WordsError;
use crate::listening::read_listen;
use crate::loading::read_load;
use crate::plain::read_plain;
use crate::request::Request;
use crate::submission::read_submission;
use crate::tables::read_table;
use crate::tools::read_tool;
use std::alloc::Global;

/// What `qshape` is asked for.
fn read_qshape(alloc: Global, words: &[String]) -> Result<Request, WordsError>
    ensures { IsAnswer (is_qshape_usage (map string_bytes words.now))
        (IsQshape (matches_of qshape_app (map string_bytes words.now))) result }
{
    match read_table(alloc, words) {
        Ok(table) => Ok(Request::Qshape(table)),
        Err(error) => Err(error),
    }
}

/// What the words of this command ask for.
fn read_command(alloc: Global, command: &[u8], words: &[String]) -> Result<Request, WordsError>
    requires { command_of (map string_bytes words.now) ≡ Some command.now }
    ensures { IsAnswer (is_usage_of (map string_bytes words.now) command.now)
        (IsRequest (map string_bytes words.now)) result }
{
    if command == b"replay".as_slice() {
        return read_plain(alloc, "replay", words, Request::Replay);
    }
    if command == b"submit".as_slice() {
        return read_submission(alloc, words);
    }
    if command == b"drain".as_slice() {
        return read_drain(alloc, words);
    }
    if command == b"qshape".as_slice() {
        return read_qshape(alloc, words);
    }
    if command == b"load".as_slice() {
        return read_load(alloc, words);
    }
    if command == b"queue".as_slice() {
        return read_plain(alloc, "queue", words, Request::Queue);
    }
    if command == b"listen".as_slice() {
        return read_listen(alloc, words);
    }
    read_tool(alloc, command, words)
}

/// What the words ask for, the command in front. They are refused exactly where the first is no
/// command, the command's words break its form as clap states it (a request for help is a refusal
/// too), a word of `submit` or `route` is no address, one of `qshape` is no queue, one of an act is no id
/// and isn't `-` or, where that is allowed, `ALL`, one of `show` is no id, or one of `flush` is no domain.
/// What is answered is what the words say: each option's value, or its default where none is given, and of the queues those
/// that are named, incoming and active where none is.
pub fn read_words(alloc: Global, words: &[String]) -> Result<Request, WordsError>
    ensures { IsAnswer (is_usage (map string_bytes words.now))
        (IsRequest (map string_bytes words.now)) result }
{
    match words.first() {
        Some(command) => read_command(alloc, command.as_bytes(), words),
        None => Err(WordsError::NoCommand),
    }
}
