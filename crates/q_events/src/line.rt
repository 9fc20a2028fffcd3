//! What the lines of an event list say.
ghost use Rattle.std.specs.Prelude.{◌≡◌, IfOk};
ghost use Rattle.q_numbers.specs.Pieces.{words_in};
ghost use Rattle.q_events.specs.EventLines.{command_of, is_body, is_passed, meaning_of_line, mail_in, moment_of, reply_in, reply_to, single_of, trigger_command};

use q_model::{Address, Addresses, Event, LAST_MOMENT, NoMemory};
use q_numbers::{first_word, read_number};
use q_text::{read_outcomes, read_receivers, read_sender, read_state, read_trigger};
use std::alloc::Global;

/// What a line says.
#[derive(Debug, Drop)]
pub(crate) enum ListLine {
    /// Nothing: it is empty, or begins with `#`.
    Passed,
    /// It is one of content, whose text stands behind `body` and a space.
    Body,
    Told(Command),
}

/// What a line says that is neither passed over nor one of content.
#[derive(Debug, Drop)]
pub(crate) enum Command {
    /// A mail, whose content stands in the lines before it.
    Mail {
        sender: Option<Address>,
        to: Addresses,
    },
    /// An event that is no mail.
    Plain(Event),
    Restart,
    End,
}

fn mail(alloc: Global, text: &[u8]) -> Result<Option<Command>, NoMemory>
    ensures { IfOk result (λ command. command ≡ mail_in (words_in text.now)) }
{
    let (word, more) = first_word(text);
    let Some(sender) = read_sender(word) else {
        return Ok(None);
    };
    let Some(list) = more else {
        return Ok(None);
    };
    let Some(to) = read_receivers(alloc, list)? else {
        return Ok(None);
    };
    Ok(Some(Command::Mail { sender, to }))
}

fn reply_to(alloc: Global, number: u64, text: &[u8]) -> Result<Option<Command>, NoMemory>
    ensures { IfOk result (λ command. command ≡ reply_to number (words_in text.now)) }
{
    let (word, more) = first_word(text);
    let Some(site) = read_state(word) else {
        return Ok(None);
    };
    let Some(rest) = more else {
        return Ok(None);
    };
    let Some(outcomes) = read_outcomes(alloc, rest, site)? else {
        return Ok(None);
    };
    Ok(Some(Command::Plain(Event::Reply {
        number,
        site,
        outcomes,
    })))
}

fn reply(alloc: Global, text: &[u8]) -> Result<Option<Command>, NoMemory>
    ensures { IfOk result (λ command. command ≡ reply_in (words_in text.now)) }
{
    let (word, more) = first_word(text);
    let Some(number) = read_number(word, 0, u64::MAX) else {
        return Ok(None);
    };
    let Some(rest) = more else {
        return Ok(None);
    };
    reply_to(alloc, number, rest)
}

fn moment(text: &[u8]) -> Option<Command>
    ensures { result ≡ moment_of text.now }
{
    let moment = read_number(text, 0, LAST_MOMENT)?;
    Some(Command::Plain(Event::At { moment }))
}

fn trigger(text: &[u8]) -> Option<Command>
    ensures { result ≡ trigger_command text.now }
{
    let kind = read_trigger(text)?;
    Some(Command::Plain(Event::Trigger { kind }))
}

/// The command of a line without a list.
#[tactic(auto, unfolding(crate::specs::EventLines::single_of))]
fn single(line: &[u8]) -> Option<Command>
    ensures { result ≡ single_of line.now }
{
    if line == b"restart".as_slice() {
        return Some(Command::Restart);
    }
    if line == b"end".as_slice() {
        return Some(Command::End);
    }
    if line.starts_with(b"at ") {
        return moment(&line[3..]);
    }
    if line.starts_with(b"trigger ") {
        return trigger(&line[8..]);
    }
    None
}

#[tactic(auto, unfolding(crate::specs::EventLines::command_of))]
fn parse_command(alloc: Global, line: &[u8]) -> Result<Option<Command>, NoMemory>
    ensures { IfOk result (λ command. command ≡ command_of line.now) }
{
    if line.starts_with(b"mail ") {
        return mail(alloc, &line[5..]);
    }
    if line.starts_with(b"reply ") {
        return reply(alloc, &line[6..]);
    }
    Ok(single(line))
}

fn is_passed(line: &[u8]) -> bool
    ensures { result ≡ is_passed line.now }
{
    line.is_empty() || line.starts_with(b"#")
}

fn is_body(line: &[u8]) -> bool
    ensures { result ≡ is_body line.now }
{
    line == b"body".as_slice() || line.starts_with(b"body ")
}

/// What a line says; `None` where it is none of an event list.
#[tactic(auto, unfolding(crate::specs::EventLines::meaning_of_line))]
pub(crate) fn parse(alloc: Global, line: &[u8]) -> Result<Option<ListLine>, NoMemory>
    ensures { IfOk result (λ said. said ≡ meaning_of_line line.now) }
{
    if is_passed(line) {
        return Ok(Some(ListLine::Passed));
    }
    if is_body(line) {
        return Ok(Some(ListLine::Body));
    }
    let Some(command) = parse_command(alloc, line)? else {
        return Ok(None);
    };
    Ok(Some(ListLine::Told(command)))
}
