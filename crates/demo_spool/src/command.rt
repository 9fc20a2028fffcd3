//! A command of the queue manager, as it is shown and run.
use q_folder_host::FolderHost;
use q_model::Moment;
use q_stream::{MemClock, MemSource};
use q_tcp_hops::{TcpDoor, TcpHops};
use q_top::{Status, qmgr};
use std::io;

type Spool = FolderHost<HostRuntime, HostRuntime>;

/// What is shown of a command, its words, its input and the moment of its clock.
pub(crate) struct Command {
    pub(crate) shown: &'static str,
    pub(crate) words: &'static [&'static str],
    pub(crate) input: &'static str,
    pub(crate) moment: Moment,
}

pub(crate) fn run(
    rt: HostRuntime,
    host: &mut Spool,
    hops: &mut TcpHops<HostRuntime>,
    door: &mut TcpDoor<HostRuntime>,
    command: &Command,
) -> io::Result<Status> {
    let alloc = rt.alloc();
    let mut words = Vec::new(alloc);
    for word in command.words {
        words.push(word.to_string(alloc)?)?;
    }
    let Ok(mut source) = MemSource::new(alloc, command.input.as_bytes(), 4096, &[]) else {
        return Ok(Status::NoMemory);
    };
    let Ok(mut clock) = MemClock::new(alloc, &[command.moment]) else {
        return Ok(Status::NoMemory);
    };
    println!(rt; "$ {}", command.shown)?;
    Ok(qmgr(alloc, &words, &mut source, host, &mut clock, hops, door))
}
