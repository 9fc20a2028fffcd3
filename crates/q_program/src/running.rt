//! The program.
use crate::call::{Call, Options, read_call};
use crate::heard::Heard;
use crate::help::{HELP, USAGE, VERSION};
use crate::noted::Noted;
use crate::report::report;
use crate::saying::say;
use crate::tally::Counted;
use q_folder_host::{Access, FolderHost, Syncs};
use q_host::Host as Files;
use q_stream::{RealClock, StdSource};
use q_tcp_hops::{TcpDoor, TcpHops};
use q_top::{Status, qmgr};
use q_words::{Request, WordsError, read_words};
use std::fmt::Display;
use std::io::ErrorKind;
use std::{env, fs};

/// What is told of a spool that another process has, and of one that none has.
const IN_USE: &str = "\
# HELP qmgr_spool_in_use Whether a process has the spool.
# TYPE qmgr_spool_in_use gauge
qmgr_spool_in_use 1
";

const FREE: &str = "\
# HELP qmgr_spool_in_use Whether a process has the spool.
# TYPE qmgr_spool_in_use gauge
qmgr_spool_in_use 0
";

/// A host over the folders of a spool, whose output is counted.
pub(crate) type Host<'a> = FolderHost<HostRuntime, Counted<'a>>;

/// Whether standard input is a file, so that nobody who writes it waits for an answer.
fn reads_a_file(rt: HostRuntime) -> bool {
    match fs::metadata(&rt, "/dev/stdin") {
        Ok(found) => found.is_file(),
        Err(_) => false,
    }
}

/// When folders are synced. Who writes the list of a replay may wait for what it tells, and a client's
/// message is acknowledged only when it stands on disk and its line has left.
fn syncs_of(rt: HostRuntime, request: &Result<Request, WordsError>, options: Options) -> Syncs {
    if options.syncs_each {
        return Syncs::Each;
    }
    let keeps_lines = match request {
        Ok(Request::Replay) => reads_a_file(rt),
        Ok(Request::Listen { .. }) => false,
        _ => true,
    };
    Syncs::Grouped { keeps_lines }
}

/// What a command may do with the spool: some look at it alone.
fn access_of(rt: HostRuntime, request: &Result<Request, WordsError>, options: Options) -> Access {
    match request {
        Ok(Request::Queue) | Ok(Request::Qshape(_)) | Ok(Request::Json) => Access::Look,
        Ok(Request::Status) | Ok(Request::Show(_)) | Ok(Request::Check) => Access::Look,
        Ok(Request::Params) | Ok(Request::Route(_)) | Ok(Request::Audit) => Access::Look,
        _ => Access::Change {
            wait: options.wait,
            syncs: syncs_of(rt, request, options),
        },
    }
}

/// Tells behind the figures of a spool whether a process has it, and answers how the command ended then.
fn with_use(request: &Result<Request, WordsError>, host: &mut Host<'_>, status: Status) -> Status {
    match request {
        Ok(Request::Status) if status == Status::Done => {}
        _ => return status,
    }
    let text = if host.user().is_some() { IN_USE } else { FREE };
    match host.tell(text.as_bytes()) {
        Ok(()) => status,
        Err(_) => Status::Tell,
    }
}

/// Lets leave what a command told, and answers how it ended then.
fn flushed(host: &mut Host<'_>, status: Status) -> Status {
    match host.flush() {
        Err(_) if status != Status::Disk => Status::Tell,
        _ => status,
    }
}

/// Says why a command can't be begun.
fn refuse<D: Display + Drop>(rt: HostRuntime, status: Status, why: D) -> u8 {
    say(rt, format_args!("{status}: {why}"));
    status.number()
}

/// Runs the command of these words on the spool in a folder.
fn run(rt: HostRuntime, options: Options, folder: &str, words: &[String]) -> u8 {
    let request = read_words(rt.alloc(), words);
    let access = access_of(rt, &request, options);
    let heard = Heard::new(rt.alloc(), &request);
    let output = Counted { rt, heard: &heard };
    let reader = Noted {
        reader: rt.reader(),
        heard: &heard,
    };
    let Ok(mut host) = FolderHost::new(rt.alloc(), rt, output, folder, access) else {
        return refuse(rt, Status::NoMemory, folder);
    };
    let mut hops = match TcpHops::new(rt.alloc(), rt) {
        Ok(hops) => hops,
        Err(error) => return refuse(rt, Status::Disk, error),
    };
    let mut door = match TcpDoor::new(rt.alloc(), rt) {
        Ok(door) => door,
        Err(error) => return refuse(rt, Status::Disk, error),
    };
    let mut source = StdSource::new(reader);
    let mut clock = RealClock::new(rt);
    let status = qmgr(
        rt.alloc(),
        words,
        &mut source,
        &mut host,
        &mut clock,
        &mut hops,
        &mut door,
    );
    let status = with_use(&request, &mut host, status);
    let status = flushed(&mut host, status);
    report(
        rt,
        folder,
        words,
        &request,
        &mut host,
        status,
        &heard,
        door.fault(),
        hops.crowded_out(),
    );
    status.number()
}

/// Says what the program is, on standard output.
fn tell(rt: HostRuntime, text: &str) -> u8 {
    match println!(rt; "{text}") {
        Ok(()) => Status::Done.number(),
        Err(error) => refuse(rt, Status::Tell, error),
    }
}

/// Runs what the words of the program say, and answers the exit status. Words are judged before
/// anything is touched.
pub fn program(rt: HostRuntime, words: &[String]) -> u8 {
    match read_call(words) {
        Call::Help => tell(rt, HELP),
        Call::Version => tell(rt, VERSION),
        Call::Run {
            options,
            folder,
            words,
        } => run(rt, options, folder.as_str(), words),
        Call::Wrong(why) => {
            say(rt, format_args!("{}: {why}\n{USAGE}", Status::Usage));
            Status::Usage.number()
        }
    }
}

/// The words behind the name of the program; where they can't be had, the exit status.
pub fn words_of(rt: HostRuntime) -> Result<Vec<String>, u8> {
    let all = match env::args(&rt) {
        Ok(all) => all,
        Err(error) if error.kind() == ErrorKind::OutOfMemory => {
            return Err(refuse(rt, Status::NoMemory, "the words"));
        }
        Err(_) => return Err(refuse(rt, Status::Usage, "a word isn't UTF-8")),
    };
    let mut words = Vec::new(rt.alloc());
    for word in all.skip(1) {
        if words.push(word).is_err() {
            return Err(refuse(rt, Status::NoMemory, "the words"));
        }
    }
    Ok(words)
}
