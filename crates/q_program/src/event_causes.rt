//! Why a line of an event list is refused, in words that name what stands in it.
use crate::flights::Flights;
use crate::noted::Lines;
use q_model::{Address, LAST_MOMENT, SiteState};
use q_numbers::{first_word, read_number};
use q_text::{read_outcome, read_sender, read_state, read_trigger};
use std::alloc::{AllocError, Global};

/// Why a line is refused that says an event by itself.
fn misplaced(alloc: Global, flights: &Flights) -> Result<String, AllocError> {
    if flights.is_timed() {
        return format!(in alloc; "lines of content stand right before their mail");
    }
    format!(in alloc; "no `at` stands before it in its life")
}

/// Why a mail is refused.
fn mail_cause(alloc: Global, text: &[u8], flights: &Flights) -> Result<String, AllocError> {
    let (sender, more) = first_word(text);
    if read_sender(sender).is_none() {
        let shown = sender.escape_ascii();
        return format!(in alloc; "sender, \"{shown}\", is no address");
    }
    let Some(more) = more else {
        return format!(in alloc; "a mail wants recipients behind its sender");
    };
    for (place, word) in more.split(|byte| *byte == b' ').enumerate() {
        if Address::new(word).is_none() {
            let (number, shown) = (place.saturating_add(1), word.escape_ascii());
            return format!(in alloc; "recipient {number}, \"{shown}\", is no address");
        }
    }
    misplaced(alloc, flights)
}

/// Why a reply is refused whose outcomes are well.
fn unmatched(
    alloc: Global,
    number: u64,
    count: usize,
    flights: &Flights,
) -> Result<String, AllocError> {
    match flights.recipients(number) {
        _ if !flights.is_timed() => misplaced(alloc, flights),
        None => format!(in alloc; "reply {number}: no such delivery in flight"),
        Some(want) if want != count => {
            format!(in alloc; "reply {number}: {count} outcomes for {want} recipients")
        }
        Some(_) => misplaced(alloc, flights),
    }
}

/// Why the outcomes of a reply are refused.
fn outcomes_cause(
    alloc: Global,
    number: u64,
    state: SiteState,
    text: &[u8],
    flights: &Flights,
) -> Result<String, AllocError> {
    let mut count: usize = 0;
    for word in text.split(|byte| *byte == b' ') {
        if read_outcome(word, state).is_none() {
            let shown = word.escape_ascii();
            return format!(in alloc; "reply {number}: \"{shown}\" is no outcome here");
        }
        count = count.saturating_add(1);
    }
    unmatched(alloc, number, count, flights)
}

/// Why a reply is refused.
fn reply_cause(alloc: Global, text: &[u8], flights: &Flights) -> Result<String, AllocError> {
    let (word, more) = first_word(text);
    let (shown, number) = (word.escape_ascii(), read_number(word, 0, u64::MAX));
    let Some(number) = number else {
        return format!(in alloc; "reply wants a number, and \"{shown}\" is none");
    };
    let (word, more) = first_word(more.unwrap_or_default());
    match (read_state(word), more) {
        (None, _) => format!(in alloc; "reply {number}: up or down has to follow"),
        (Some(_), None) => format!(in alloc; "reply {number}: no outcome"),
        (Some(state), Some(text)) => outcomes_cause(alloc, number, state, text, flights),
    }
}

/// Why a line without a list is refused: it isn't well by itself, for which this is the reason, or it
/// stands where it may not.
fn single_cause(
    alloc: Global,
    is_well: bool,
    why: &str,
    flights: &Flights,
) -> Result<String, AllocError> {
    if is_well {
        return misplaced(alloc, flights);
    }
    format!(in alloc; "{why}")
}

/// Why a line is refused.
fn line_cause(alloc: Global, line: &[u8], flights: &Flights) -> Result<String, AllocError> {
    let (word, behind) = first_word(line);
    let text = behind.unwrap_or_default();
    match word {
        _ if line.ends_with(b"\r") => format!(in alloc; "a CR at the end of the line"),
        _ if line.ends_with(b" ") => format!(in alloc; "a blank at the end of the line"),
        b"mail" => mail_cause(alloc, text, flights),
        b"reply" => reply_cause(alloc, text, flights),
        b"at" => {
            let is_well = read_number(text, 0, LAST_MOMENT).is_some();
            single_cause(
                alloc,
                is_well,
                "at wants a moment, at most 999990000000",
                flights,
            )
        }
        b"trigger" => {
            let is_well = read_trigger(text).is_some();
            single_cause(alloc, is_well, "trigger wants D, A or F", flights)
        }
        b"restart" | b"end" => {
            let is_well = behind.is_none();
            single_cause(
                alloc,
                is_well,
                "nothing may stand behind this word",
                flights,
            )
        }
        _ => {
            let shown = word.escape_ascii();
            format!(in alloc; "\"{shown}\" is no event")
        }
    }
}

/// Why the line of this number is refused. One that isn't there is behind the last.
pub(crate) fn cause_in_events(
    alloc: Global,
    lines: &Lines,
    flights: &Flights,
    number: u64,
) -> Option<String> {
    match lines.line(number) {
        None | Some(b"") => format!(in alloc; "the list has no `end`").ok(),
        Some(line) => line_cause(alloc, line, flights).ok(),
    }
}
