//! Commands in processes of their own.
use crate::room::Room;
use crate::shown::show;
use anyhow::{Context, Result};
use std::fs::File;
use std::io::{BufRead, BufReader, Read, Write};
use std::process::{Child, ChildStdin, ChildStdout, Command, ExitStatus, Stdio};
use std::{env, fs};

/// Where a command reads from and writes to.
#[derive(Drop)]
pub(crate) struct Streams {
    /// What it reads.
    pub(crate) input: String,
    /// The file that it reads in place of that.
    pub(crate) input_from: Option<String>,
    /// The file that it writes to.
    pub(crate) output_to: Option<String>,
}

/// The word of a command that stands for the port of its room.
const PORT: &str = "PORT";

/// A command in a room, of these words.
fn command_of(rt: HostRuntime, room: &Room, words: &str) -> Result<Command> {
    let program = env::args(&rt)?.next().context("the name of this program")?;
    let mut command = Command::new(rt.alloc(), fs::canonicalize(&rt, &program)?)?;
    command.arg("qmgr")?;
    let port = format!(in rt.alloc(); "{}", room.port)?;
    for word in words.split_whitespace() {
        command.arg(if word == PORT { port.as_str() } else { word })?;
    }
    command.current_dir(room.path.as_str())?;
    command
        .stdin(Stdio::piped())
        .stdout(Stdio::piped())
        .stderr(Stdio::piped());
    Ok(command)
}

/// Shows how a command ended.
fn show_status(rt: HostRuntime, status: ExitStatus) -> Result<()> {
    let number = status.code().context("a command was ended by a signal")?;
    Ok(println!(rt; "status {number}")?)
}

/// Runs a command, and shows what it told, what it said and its status.
pub(crate) fn run(rt: HostRuntime, room: &Room, words: &str, streams: &Streams) -> Result<()> {
    let mut command = command_of(rt, room, words)?;
    if let Some(path) = &streams.input_from {
        command.stdin(File::open(&rt, path)?);
    }
    if let Some(path) = &streams.output_to {
        command.stdout(File::create(&rt, path)?);
    }
    let mut child = command.spawn(&rt)?;
    if let Some(mut input) = child.stdin.take() {
        // One that needs no input may have ended before it read.
        let _ = input.write_all(streams.input.as_bytes());
    }
    let output = child.wait_with_output(rt.alloc())?;
    show(rt, "", output.stdout.as_slice())?;
    show(rt, "2> ", output.stderr.as_slice())?;
    show_status(rt, output.status)
}

/// The second words of the lines that a listing tells of messages, a line each.
pub(crate) fn ids_told_by(rt: HostRuntime, room: &Room, words: &str) -> Result<String> {
    let mut command = command_of(rt, room, words)?;
    let output = command.output(&rt)?;
    let mut ids = String::new(rt.alloc());
    for line in str::from_utf8(output.stdout.as_slice())?.lines() {
        if line.starts_with(" ") || line.starts_with("--") {
            continue;
        }
        if let Some(id) = line.split(' ').nth(1) {
            ids.push_str(id)?;
            ids.push('\n')?;
        }
    }
    Ok(ids)
}

/// A command that runs, with its standard input open.
#[derive(Drop)]
pub(crate) struct Running {
    child: Child,
    input: ChildStdin,
    output: BufReader<ChildStdout>,
}

impl Running {
    /// Begins a command.
    pub(crate) fn new(rt: HostRuntime, room: &Room, words: &str) -> Result<Running> {
        let mut child = command_of(rt, room, words)?.spawn(&rt)?;
        let input = child.stdin.take().context("a standard input")?;
        let output = child.stdout.take().context("a standard output")?;
        Ok(Running {
            child,
            input,
            output: BufReader::new(rt.alloc(), output)?,
        })
    }

    /// Sends it a line.
    pub(crate) fn send(&mut self, line: &str) -> Result<()> {
        self.input.write_all(line.as_bytes())?;
        Ok(self.input.write_all(b"\n")?)
    }

    /// Waits for the next line that it tells, and shows it.
    pub(crate) fn hear(&mut self, rt: HostRuntime) -> Result<()> {
        let mut line = String::new(rt.alloc());
        self.output.read_line(&mut line)?;
        show(rt, "", line.as_bytes())
    }

    /// Ends its input, and shows what it still tells, what it says and its status.
    pub(crate) fn end(self, rt: HostRuntime) -> Result<()> {
        let Running {
            mut child,
            input,
            mut output,
        } = self;
        drop(input);
        let mut told = Vec::new(rt.alloc());
        output.read_to_end(&mut told)?;
        let ended = child.wait_with_output(rt.alloc())?;
        show(rt, "", told.as_slice())?;
        show(rt, "2> ", ended.stderr.as_slice())?;
        show_status(rt, ended.status)
    }
}
