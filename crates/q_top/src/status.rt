//! How a command ended.
ghost use Rattle.std.specs.Prelude.{◌≡◌, ◌≢◌, ℕ};
ghost use Rattle.q_top.specs.Statuses.{conf_status, delivery_status, input_of, listen_error_status, listen_status, replay_status, status_number, status_of, telling_status, tool_status};

use q_conf::{ConfError, ConfFile};
use q_host::HostError;
use q_listen::{ListenError, Listened};
use q_model::{Area, Bound, Name};
use q_replay::{Delivered, ReplayError};
use q_super::SuperError;
use q_tools::ToolError;
use std::fmt;

/// A file of input that has a grammar.
#[derive(Clone, Copy, Debug, PartialEq, Eq)]
pub enum InputFile {
    /// The event list, from the source.
    Events,
    /// The parameters, in the file `params` of conf.
    Parameters,
    /// The transport table, in the file `transport` of conf.
    Table,
    /// Ids of messages, one a line, from the source.
    Ids,
    /// The trace, from the source.
    Trace,
}

/// How a command ended. Everything but `Done` is a refusal.
#[derive(Clone, Copy, Debug, PartialEq, Eq)]
pub enum Status {
    /// The input was read through `end`, or to its end, and all text was told.
    Done,
    /// The words are no command, or break its form.
    Usage,
    /// The file leaves its grammar at this line (counted from 1), or a reply names no delivery in
    /// flight or has a wrong number of outcomes, an event comes before the first `at` of its life, or
    /// the list lacks its `end`.
    BadInput { file: InputFile, line: u64 },
    /// A call on the disk failed.
    Disk,
    /// A call on the output failed.
    Tell,
    /// A call on the input failed.
    Source,
    /// The spool can't be opened: this name in this area is at fault.
    Damaged { area: Area, name: Name },
    /// So many rests were given, and another is needed: deliveries are still in flight, or a client is
    /// still waited for.
    Unfinished { rests: u64 },
    /// This limit was reached.
    Limit { bound: Bound },
    /// Memory ran out.
    NoMemory,
    /// The port can't be taken, or no connection could be accepted.
    Door,
    /// A message that a queue tool is to act on stands nowhere where the act takes messages from, or
    /// can't be given up; or nothing stands under an id that is to be shown.
    Absent,
    /// A queue file of a life can't be read any longer: this name in this area. It comes over a host
    /// alone that doesn't tell its files.
    Unreadable { area: Area, name: Name },
}

impl Status {
    /// The exit status of a program that ends so.
    pub fn number(&self) -> u8
        ensures { result ≡ status_number self.now }
    {
        match self {
            Status::Done => 0,
            Status::Usage => 1,
            Status::BadInput { .. } => 2,
            Status::Disk => 3,
            Status::Tell => 4,
            Status::Source => 5,
            Status::Damaged { .. } => 6,
            Status::Unfinished { .. } => 7,
            Status::Limit { .. } => 8,
            Status::NoMemory => 9,
            Status::Door => 10,
            Status::Absent => 11,
            Status::Unreadable { .. } => 12,
        }
    }
}

/// How a command ends whose lives ended so.
fn replay_status(error: ReplayError) -> Status
    ensures exact { result ≡ replay_status error }
    ensures no_usage { result ≢ Status.Usage }
    ensures no_door { result ≢ Status.Door }
    ensures no_rests { (n : ℕ) → result ≢ Status.Unfinished n }
{
    match error {
        ReplayError::Disk => Status::Disk,
        ReplayError::Tell => Status::Tell,
        ReplayError::Source => Status::Source,
        ReplayError::NoMemory => Status::NoMemory,
        ReplayError::BadEvent { line } => Status::BadInput {
            file: InputFile::Events,
            line,
        },
        ReplayError::Limit { bound } => Status::Limit { bound },
        ReplayError::Damaged { area, name } => Status::Damaged { area, name },
        ReplayError::Unreadable { area, name } => Status::Unreadable { area, name },
    }
}

/// How a command ends by how lives ended.
pub(crate) fn status_of(end: Result<(), ReplayError>) -> Status
    ensures exact { result ≡ status_of end }
    ensures no_usage { result ≢ Status.Usage }
    ensures no_door { result ≢ Status.Door }
    ensures no_rests { (n : ℕ) → result ≢ Status.Unfinished n }
{
    match end {
        Ok(()) => Status::Done,
        Err(error) => replay_status(error),
    }
}

/// How a command ends by how a life ended that delivers.
pub(crate) fn delivery_status(end: Result<Delivered, ReplayError>) -> Status
    ensures exact { result ≡ delivery_status end }
    ensures no_usage { result ≢ Status.Usage }
    ensures no_door { result ≢ Status.Door }
{
    match end {
        Ok(Delivered::All) => Status::Done,
        Ok(Delivered::Unfinished { rests }) => Status::Unfinished { rests },
        Err(error) => replay_status(error),
    }
}

/// How a command ends whose life listened, and was refused.
fn listen_error_status(error: ListenError) -> Status
    ensures exact { result ≡ listen_error_status error }
    ensures no_source { result ≢ Status.Source }
    ensures no_usage { result ≢ Status.Usage }
    ensures no_rests { (n : ℕ) → result ≢ Status.Unfinished n }
{
    match error {
        ListenError::Disk => Status::Disk,
        ListenError::Tell => Status::Tell,
        ListenError::Door => Status::Door,
        ListenError::NoMemory => Status::NoMemory,
        ListenError::Limit { bound } => Status::Limit { bound },
        ListenError::Damaged { area, name } => Status::Damaged { area, name },
        ListenError::Unreadable { area, name } => Status::Unreadable { area, name },
    }
}

/// How a command ends by how a life ended that listens.
pub(crate) fn listen_status(end: Result<Listened, ListenError>) -> Status
    ensures exact { result ≡ listen_status end }
    ensures no_source { result ≢ Status.Source }
    ensures no_usage { result ≢ Status.Usage }
{
    match end {
        Ok(Listened::All) => Status::Done,
        Ok(Listened::Unfinished { rests }) => Status::Unfinished { rests },
        Err(error) => listen_error_status(error),
    }
}

/// How a command ends by how a queue tool ended.
pub(crate) fn tool_status(end: Result<(), ToolError>) -> Status
    ensures exact { result ≡ tool_status end }
    ensures no_usage { result ≢ Status.Usage }
    ensures no_door { result ≢ Status.Door }
    ensures no_rests { (n : ℕ) → result ≢ Status.Unfinished n }
{
    match end {
        Ok(()) => Status::Done,
        Err(ToolError::Life(error)) => replay_status(error),
        Err(ToolError::Act(SuperError::Disk)) => Status::Disk,
        Err(ToolError::Act(SuperError::Tell)) => Status::Tell,
        Err(ToolError::Act(SuperError::NoMemory)) => Status::NoMemory,
        Err(ToolError::Act(SuperError::Absent)) => Status::Absent,
    }
}

/// A file of conf among the files of input.
pub(crate) fn input_of(file: ConfFile) -> InputFile
    ensures { result ≡ input_of file }
{
    match file {
        ConfFile::Parameters => InputFile::Parameters,
        ConfFile::Table => InputFile::Table,
    }
}

/// How a command ends that can't go by the files of conf.
pub(crate) fn conf_status(error: ConfError) -> Status
    ensures exact { result ≡ conf_status error }
    ensures no_usage { result ≢ Status.Usage }
    ensures no_door { result ≢ Status.Door }
    ensures no_rests { (n : ℕ) → result ≢ Status.Unfinished n }
{
    match error {
        ConfError::Disk => Status::Disk,
        ConfError::NoMemory => Status::NoMemory,
        ConfError::BadLine { file, line } => Status::BadInput {
            file: input_of(file),
            line,
        },
    }
}

/// How a command ends that only tells.
pub(crate) fn telling_status(told: Result<(), HostError>) -> Status
    ensures exact { result ≡ telling_status told }
    ensures no_usage { result ≢ Status.Usage }
    ensures no_door { result ≢ Status.Door }
    ensures no_rests { (n : ℕ) → result ≢ Status.Unfinished n }
{
    match told {
        Ok(()) => Status::Done,
        Err(HostError::Disk) => Status::Disk,
        Err(HostError::Tell) => Status::Tell,
        Err(HostError::NoMemory) => Status::NoMemory,
    }
}

/// The text of the fault line that a program prints for this status.
impl fmt::Display for Status {
    fn fmt<W: fmt::Write>(&self, f: &mut fmt::Formatter<W>) -> fmt::Result {
        match self {
            Status::Done => write!(f, "done"),
            Status::Usage => write!(f, "wrong words"),
            Status::BadInput { file, line } => match file {
                InputFile::Events => write!(f, "bad input: events line {line}"),
                InputFile::Parameters => write!(f, "bad input: parameters line {line}"),
                InputFile::Table => write!(f, "bad input: table line {line}"),
                InputFile::Ids => write!(f, "bad input: ids line {line}"),
                InputFile::Trace => write!(f, "bad input: trace line {line}"),
            },
            Status::Disk => write!(f, "disk fault"),
            Status::Tell => write!(f, "output fault"),
            Status::Source => write!(f, "input fault"),
            Status::Damaged { area, name } => {
                let folder = area.folder();
                write!(f, "damaged spool: {folder}/{name}")
            }
            Status::Unfinished { rests } => write!(f, "unfinished after {rests} rests"),
            Status::Limit { bound } => write!(f, "limit reached: {bound}"),
            Status::NoMemory => write!(f, "no memory"),
            Status::Door => write!(f, "connection fault"),
            Status::Absent => write!(f, "no such message"),
            Status::Unreadable { area, name } => {
                let folder = area.folder();
                write!(f, "unreadable file: {folder}/{name}")
            }
        }
    }
}
