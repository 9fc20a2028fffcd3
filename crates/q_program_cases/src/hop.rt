//! A hop, which takes one connection.
use anyhow::{Result, bail};
use q_serving::{Answers, answer, await_end, listen};
use std::fs::read_dir;
use std::io::{BufReader, Read};
use std::net::TcpStream;
use std::time::Duration;
use std::{fs, io, process, thread};

/// How often a hop looks whether all others have a connection, and how long it waits before the next look.
const LOOKS: u32 = 2_000;

const WAIT_MILLIS: u64 = 5;

/// Takes a connection.
fn accept(rt: HostRuntime) -> io::Result<TcpStream> {
    let listener = listen(&rt)?;
    let (stream, _) = listener.accept()?;
    Ok(stream)
}

/// Answers from a list of replies; what comes behind the last one isn't read.
fn reply(
    rt: HostRuntime,
    mut stream: TcpStream,
    replies: &[String],
) -> io::Result<BufReader<TcpStream>> {
    let alloc = rt.alloc();
    let mut lines = BufReader::new(alloc, stream.try_clone()?)?;
    let answers = Answers {
        replies,
        delay: Duration::ZERO,
    };
    answer(alloc, &rt, &mut lines, &mut stream, answers)?;
    Ok(lines)
}

/// Answers, and reads until the other side closes.
pub(crate) fn serve(rt: HostRuntime, replies: &[String]) -> Result<()> {
    let mut lines = reply(rt, accept(rt)?, replies)?;
    Ok(await_end(&mut lines)?)
}

/// Answers, and keeps the connection without reading until the standard input ends.
pub(crate) fn serve_stuck(rt: HostRuntime, replies: &[String]) -> Result<()> {
    let _lines = reply(rt, accept(rt)?, replies)?;
    let mut rest = Vec::new(rt.alloc());
    rt.reader().read_to_end(&mut rest)?;
    Ok(())
}

/// How many names stand in a folder.
fn count(rt: HostRuntime, folder: &str) -> Result<u32> {
    let mut count: u32 = 0;
    for entry in read_dir(&rt, folder)? {
        entry?;
        count = count.saturating_add(1);
    }
    Ok(count)
}

/// Waits until so many names stand in a folder.
fn await_names(rt: HostRuntime, folder: &str, wanted: u32) -> Result<()> {
    for _ in 0..LOOKS {
        if count(rt, folder)? >= wanted {
            return Ok(());
        }
        thread::sleep(&rt, Duration::from_millis(WAIT_MILLIS));
    }
    bail!("the other hops have no connection")
}

/// Takes a connection, waits until so many hops have one, each of which leaves a name in the folder, and
/// then serves.
pub(crate) fn serve_together(rt: HostRuntime, words: &[String]) -> Result<()> {
    let [folder, wanted, replies @ ..] = words else {
        bail!("no folder, or no number");
    };
    let stream = accept(rt)?;
    let number = process::id(rt.process());
    let name = format!(in rt.alloc(); "{folder}/{number}")?;
    fs::write(&rt, &name, "")?;
    await_names(rt, folder.as_str(), wanted.parse::<u32>()?)?;
    let mut lines = reply(rt, stream, replies)?;
    Ok(await_end(&mut lines)?)
}
