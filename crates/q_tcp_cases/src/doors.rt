//! Clients at a door.
ghost use Rattle.std.specs.Prelude.{◌≡◌, ◌<◌, length, true};

use crate::servers::{RESTS, free_port, listen};
use q_door::{Door, DoorError};
use q_link::{Got, Link, Put};
use q_tcp_hops::{BufferedLink, TcpDoor};
use std::alloc::Global;
use std::io::{ErrorKind, Read, Write};
use std::net::{Ipv4Addr, TcpStream};
use std::test::Fail;

// A client that has sent a command and a byte more.
fn client(rt: HostRuntime, port: u16) -> Result<TcpStream, Fail> {
    let mut stream = TcpStream::connect(&rt, (Ipv4Addr::LOCALHOST, port))?;
    stream.write_all(b"NOOP\r\nQ")?;
    Ok(stream)
}

fn accept(alloc: Global, door: &mut TcpDoor<HostRuntime>) -> Result<BufferedLink, Fail>
    requires { door.old.bound ≡ true }
    ensures { door.new.bound ≡ true }
{
    match door.accept(alloc) {
        Ok(link) => Ok(link),
        Err(_) => Err(Fail::from("no link")),
    }
}

// Reads until something comes.
fn await_read(door: &mut TcpDoor<HostRuntime>, link: &mut BufferedLink, buf: &mut [u8]) -> Got
    requires { 0 < length buf.old }
{
    for _ in 0..RESTS {
        match link.read(buf) {
            Got::NotYet => door.rest(link),
            answer => return answer,
        }
    }
    Got::NotYet
}

// Takes what the client sent byte by byte, and then its end.
fn take_all(door: &mut TcpDoor<HostRuntime>, link: &mut BufferedLink) -> Option<()> {
    for want in b"NOOP\r\nQ" {
        let mut byte = [0u8; 1];
        let took = await_read(door, link, &mut byte);
        if took != Got::Took(1) || byte[0] != *want {
            return None;
        }
    }
    let answer = await_read(door, link, &mut [0u8; 1]);
    (answer == Got::End).then_some(())
}

#[test]
fn clients_one_after_another(rt: HostRuntime) -> Result<(), Fail> {
    let alloc = rt.alloc();
    let mut door = TcpDoor::new(alloc, rt)?;
    let port = free_port(rt)?;
    door.bind(port).ok().ok_or("not bound")?;
    let mut first = client(rt, port)?;
    let second = client(rt, port)?;
    let mut link = accept(alloc, &mut door)?;
    assert_eq!(rt; link.write(b"250 ok\r\n"), Put::Gave(8));
    let mut reply = [0u8; 8];
    first.read_exact(&mut reply)?;
    assert_eq!(rt; &reply, b"250 ok\r\n");
    let mut other = accept(alloc, &mut door)?;
    drop(first);
    take_all(&mut door, &mut link).ok_or("not what the first sent")?;
    door.close(alloc, link)?;
    drop(second);
    take_all(&mut door, &mut other).ok_or("not what the second sent")?;
    door.close(alloc, other)?;
    Ok(())
}

#[test]
fn a_client_that_vanishes(rt: HostRuntime) -> Result<(), Fail> {
    let alloc = rt.alloc();
    let mut door = TcpDoor::new(alloc, rt)?;
    let port = free_port(rt)?;
    door.bind(port).ok().ok_or("not bound")?;
    drop(client(rt, port)?);
    let mut link = accept(alloc, &mut door)?;
    take_all(&mut door, &mut link).ok_or("not what was sent")?;
    Ok(())
}

#[test]
fn a_port_in_use(rt: HostRuntime) -> Result<(), Fail> {
    let mut door = TcpDoor::new(rt.alloc(), rt)?;
    let taken = listen(rt)?;
    let port = taken.listener.local_addr()?.port();
    assert_eq!(rt; door.bind(port), Err(DoorError::Failed));
    let kind = door.fault().map(|error| error.kind());
    assert_eq!(rt; kind, Some(ErrorKind::AddrInUse));
    // and it may be taken once nobody has it
    drop(taken);
    assert_eq!(rt; door.bind(port), Ok(()));
    Ok(())
}
