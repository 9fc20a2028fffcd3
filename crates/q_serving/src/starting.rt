//! Servers as processes of their own.
use std::alloc::{AllocError, Global};
use std::io;
use std::io::{BufRead, BufReader, ErrorKind, Read};
use std::process::{Child, Command, ExitStatus, OpenProcess, Processes, Stdio, SystemProcess};

/// A server in a process of its own, which listens on a port of 127.0.0.1. It has a pipe as its
/// standard input, which ends with this process. A drop doesn't end the server.
#[derive(Drop)]
pub struct Server<P: OpenProcess + Drop = SystemProcess> {
    child: Child<P>,
    port: u16,
}

// The port in the first line that a server prints.
fn read_port<R: Read + Drop>(alloc: Global, output: R) -> io::Result<u16> {
    let mut line = String::new(alloc);
    BufReader::new(alloc, output)?.read_line(&mut line)?;
    match line.trim_end().parse::<u16>() {
        Ok(port) => Ok(port),
        Err(_) => Err(io::Error::from(ErrorKind::InvalidData)),
    }
}

// The port of a server that has just started.
fn port_of<P: OpenProcess + Drop>(alloc: Global, child: &mut Child<P>) -> io::Result<u16> {
    match child.stdout.take() {
        Some(output) => read_port(alloc, output),
        None => Err(io::Error::from(ErrorKind::InvalidData)),
    }
}

/// Starts a server by a command, and waits until it listens: it prints the number of its port on a
/// line of its own.
pub fn start<R: Processes>(
    alloc: Global,
    processes: &R,
    command: &mut Command,
) -> io::Result<Server<R::Started>> {
    command.stdin(Stdio::piped()).stdout(Stdio::piped());
    let mut child = command.spawn(processes)?;
    match port_of(alloc, &mut child) {
        Ok(port) => Ok(Server { child, port }),
        Err(error) => {
            // one that doesn't listen is of no use
            child.kill()?;
            child.wait()?;
            Err(error)
        }
    }
}

impl<P: OpenProcess + Drop> Server<P> {
    /// The next hop that names its port.
    pub fn next_hop(&self, alloc: Global) -> Result<String, AllocError> {
        format!(in alloc; "[127.0.0.1]:{}", self.port)
    }

    /// Waits until it ends by itself.
    pub fn wait(mut self) -> io::Result<ExitStatus> {
        self.child.wait()
    }

    /// Ends it.
    pub fn stop(mut self) -> io::Result<()> {
        self.child.kill()?;
        self.child.wait()?;
        Ok(())
    }
}
