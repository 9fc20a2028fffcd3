//! How a command ended, on standard error.
use crate::conf_causes::{cause_in_params, cause_in_table};
use crate::event_causes::cause_in_events;
use crate::heard::Heard;
use crate::passed_over::warn_of_files;
use crate::rights::warn_of_rights;
use crate::routes::warn_of_routes;
use crate::running::Host;
use crate::saying::say;
use crate::tally::Sums;
use crate::word_causes::cause_in_words;
use q_host::Host as Files;
use q_model::{Area, Moment, Names, due_of};
use q_top::{InputFile, Status};
use q_words::{Request, WordsError};
use std::alloc::Global;
use std::fmt::Display;
use std::io;

/// Says how a command ended, and why where that is known.
fn say_cause<D: Display + Drop>(rt: HostRuntime, status: Status, cause: Option<D>) {
    match cause {
        Some(cause) => say(rt, format_args!("{status}: {cause}")),
        None => say(rt, status),
    }
}

/// Says why words are refused.
fn say_usage(rt: HostRuntime, words: &[String], error: &WordsError) {
    say_cause(rt, Status::Usage, cause_in_words(rt.alloc(), words, error));
    say(rt, format_args!("{error}"));
}

/// Why a line of the event list is refused.
fn cause_in_list(alloc: Global, heard: &Heard, line: u64) -> Option<String> {
    let lines = heard.lines.take()?;
    let flights = heard.flights.take()?;
    cause_in_events(alloc, &lines, &flights, line)
}

/// Says how a command ended that isn't done.
fn say_end(
    rt: HostRuntime,
    host: &mut Host<'_>,
    status: Status,
    heard: &Heard,
    door_fault: Option<&io::Error>,
) {
    match status {
        Status::Disk | Status::Tell => say_cause(rt, status, host.fault()),
        Status::Source => say_cause(rt, status, heard.error.take()),
        Status::Door => say_cause(rt, status, door_fault),
        Status::BadInput { file, line } => {
            let cause = match file {
                InputFile::Events => cause_in_list(rt.alloc(), heard, line),
                InputFile::Parameters => cause_in_params(rt.alloc(), host),
                InputFile::Table => cause_in_table(rt.alloc(), host),
                InputFile::Ids => None,
                InputFile::Trace => None,
            };
            say_cause(rt, status, cause);
        }
        _ => say(rt, status),
    }
}

/// The least moment at which a message in deferred is due.
fn next_due(rt: HostRuntime, host: &mut Host<'_>) -> Option<Moment> {
    let mut names = Names::new(rt.alloc()).ok()?;
    host.list_after(Area::Deferred, None, &mut names).ok()?;
    Some(due_of(*names.as_slice().first()?)?.0)
}

/// Says how many connections weren't begun, since no more files may be open.
fn warn_of_descriptors(rt: HostRuntime, crowded_out: u64) {
    if crowded_out > 0 {
        say(
            rt,
            format_args!(
                "warning: {crowded_out} connections failed, since no more files may be open: raise ulimit -n"
            ),
        );
    }
}

/// Says what a drain came to, and what of the table it couldn't reach.
fn say_drained(rt: HostRuntime, host: &mut Host<'_>, status: Status, sums: Sums) {
    let is_over = matches!(status, Status::Done | Status::Unfinished { .. });
    if is_over {
        warn_of_routes(rt, host);
    }
    if !is_over && sums.is_none() {
        return;
    }
    match next_due(rt, host) {
        Some(moment) => say(rt, format_args!("{sums}, next due {moment}")),
        None => say(rt, format_args!("{sums}, none due")),
    }
}

/// Says which messages a queue tool found nowhere, and how many it acted on.
fn say_acted(rt: HostRuntime, status: Status, heard: &Heard) {
    let Some(acted) = heard.acted.take() else {
        return;
    };
    if status == Status::Absent {
        acted.say_absent(rt);
    }
    acted.say_sum(rt);
}

/// Says that another process has the spool whose queues were looked at.
fn warn_of_user(rt: HostRuntime, request: &Result<Request, WordsError>, host: &Host<'_>) {
    match request {
        Ok(Request::Params) | Ok(Request::Route(_)) | Ok(Request::Audit) => return,
        _ => {}
    }
    if let Some(user) = host.user() {
        say(
            rt,
            format_args!("{user}: a message may be missing, or told twice"),
        );
    }
}

/// Says on standard error how a command ended, and what an operator may wonder about.
pub(crate) fn report(
    rt: HostRuntime,
    folder: &str,
    words: &[String],
    request: &Result<Request, WordsError>,
    host: &mut Host<'_>,
    status: Status,
    heard: &Heard,
    door_fault: Option<&io::Error>,
    crowded_out: u64,
) {
    warn_of_descriptors(rt, crowded_out);
    warn_of_user(rt, request, host);
    match request {
        Err(error) if status == Status::Usage => return say_usage(rt, words, error),
        _ => {}
    }
    if status != Status::Done {
        say_end(rt, host, status, heard, door_fault);
    }
    match request {
        Ok(Request::Drain { .. }) => say_drained(rt, host, status, heard.sums.get()),
        Ok(Request::Queue) if status == Status::Done => warn_of_files(rt, host),
        Ok(Request::Tool(_)) => say_acted(rt, status, heard),
        Ok(Request::Check) => warn_of_rights(rt, host, folder),
        _ => {}
    }
}
