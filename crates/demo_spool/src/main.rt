//! Shows what the queue manager does on a fresh spool, in the folder `spool`: a message is submitted, a
//! replay of deliveries has a failure, a deferral and a bounce, and then the queues are listed. Where a
//! word names the program `q_hop`, that is started as a next hop in the end, and a message is submitted
//! and delivered to it. The moments are those of a story, and not of the machine's clock.
//!
//! It is an error where the folder is there already.
#![tactic(auto)]

mod command;
mod delivery;
mod story;

use command::{Command, run};
use delivery::{DELIVERY, route_to, start_hop};
use q_folder_host::FolderHost;
use q_serving::Server;
use q_tcp_hops::{TcpDoor, TcpHops};
use q_top::Status;
use std::process::ExitCode;
use std::{env, fs, io};
use story::STORY;

const FOLDER: &str = "spool";

/// Runs commands one after another, and answers the exit status of the last one.
fn run_all(rt: HostRuntime, commands: &[Command]) -> io::Result<u8> {
    let mut hops = TcpHops::new(rt.alloc(), rt)?;
    let mut door = TcpDoor::new(rt.alloc(), rt)?;
    let mut host = match FolderHost::open(rt.alloc(), rt, rt, FOLDER) {
        Ok(host) => host,
        Err(fault) => {
            eprintln!(rt; "demo_spool: {fault}")?;
            return Ok(Status::Disk.number());
        }
    };
    for command in commands {
        let status = run(rt, &mut host, &mut hops, &mut door, command)?;
        if status != Status::Done {
            eprintln!(rt; "qmgr: {status}")?;
            return Ok(status.number());
        }
    }
    Ok(Status::Done.number())
}

/// Delivers a message to a server.
fn deliver_to(rt: HostRuntime, server: &Server) -> io::Result<u8> {
    route_to(rt, FOLDER, server)?;
    run_all(rt, &DELIVERY)
}

/// Starts the server of this program, and delivers a message to it.
fn deliver(rt: HostRuntime, program: &str) -> io::Result<u8> {
    let server = start_hop(rt, program)?;
    let delivered = deliver_to(rt, &server);
    server.stop()?;
    delivered
}

fn main(rt: HostRuntime) -> io::Result<ExitCode> {
    if fs::exists(&rt, FOLDER)? {
        eprintln!(rt; "demo_spool: the folder {FOLDER} is there already")?;
        return Ok(ExitCode::from(Status::Disk.number()));
    }
    let told = run_all(rt, &STORY)?;
    if told != Status::Done.number() {
        return Ok(ExitCode::from(told));
    }
    match env::args(&rt)?.nth(1) {
        Some(program) => Ok(ExitCode::from(deliver(rt, program.as_str())?)),
        None => Ok(ExitCode::from(told)),
    }
}
