//! Where a server listens.
use std::io;
use std::net::{Ipv4Addr, Net, OpenListener, TcpListener};

/// A listener on a free port of 127.0.0.1, whose number is printed on a line of its own.
pub fn listen<R: Net + Print>(rt: &R) -> io::Result<R::Listener> {
    let listener = TcpListener::bind(rt, (Ipv4Addr::LOCALHOST, 0u16))?;
    let port = listener.local_addr()?.port();
    println!(rt; "{port}")?;
    Ok(listener)
}
