//! A client that hands mail in at a port of this machine.
use crate::shown::show;
use anyhow::{Result, bail};
use std::io::{BufRead, BufReader, ErrorKind, Write};
use std::net::{Ipv4Addr, TcpStream};
use std::thread;
use std::time::Duration;

/// How often a client tries to connect, and how long it waits before the next try.
const TRIES: u32 = 2_000;

const WAIT_MILLIS: u64 = 5;

/// A connection to a port.
#[derive(Drop)]
pub(crate) struct Client {
    stream: TcpStream,
    lines: BufReader<TcpStream>,
}

/// Connects to a port once somebody listens there.
fn connect(rt: HostRuntime, port: u16) -> Result<TcpStream> {
    for _ in 0..TRIES {
        match TcpStream::connect(&rt, (Ipv4Addr::LOCALHOST, port)) {
            Ok(stream) => return Ok(stream),
            Err(error) if error.kind() == ErrorKind::ConnectionRefused => {
                thread::sleep(&rt, Duration::from_millis(WAIT_MILLIS));
            }
            Err(error) => return Err(error.into()),
        }
    }
    bail!("nobody listens")
}

impl Client {
    /// A client that has connected.
    pub(crate) fn new(rt: HostRuntime, port: u16) -> Result<Client> {
        let stream = connect(rt, port)?;
        let lines = BufReader::new(rt.alloc(), stream.try_clone()?)?;
        Ok(Client { stream, lines })
    }

    /// Sends a line.
    pub(crate) fn send(&mut self, rt: HostRuntime, line: &str) -> Result<()> {
        let line = format!(in rt.alloc(); "{line}\r\n")?;
        Ok(self.stream.write_all(line.as_bytes())?)
    }

    /// Waits for the next line that it is sent, and shows it.
    pub(crate) fn hear(&mut self, rt: HostRuntime) -> Result<()> {
        let mut line = String::new(rt.alloc());
        self.lines.read_line(&mut line)?;
        show(rt, "< ", line.as_bytes())
    }
}
