//! Reads, writes and rests of links.
use crate::servers::{Joined, Listening, RESTS, join, listen};
use q_link::{Got, Hops, Link, NoLink, Put};
use q_model::Hop;
use q_tcp_hops::{TcpHops, TcpLink};
use std::io::{Read, Write};
use std::test::Fail;

// Reads once more than nothing comes, and adds what came; `NotYet` where nothing does.
fn await_read(
    hops: &mut TcpHops<HostRuntime>,
    link: &mut TcpLink,
    came: &mut Vec<u8>,
) -> Result<Got, Fail> {
    let mut buf = [0u8; 64];
    for _ in 0..RESTS {
        match link.read(&mut buf) {
            Got::NotYet => hops.rest(link),
            Got::Took(count) => {
                came.extend_from_slice(&buf[..count])?;
                return Ok(Got::Took(count));
            }
            answer => return Ok(answer),
        }
    }
    Ok(Got::NotYet)
}

#[test]
fn a_greeting_and_a_command(rt: HostRuntime) -> Result<(), Fail> {
    let alloc = rt.alloc();
    let mut hops = TcpHops::new(alloc, rt)?;
    let listening = listen(rt)?;
    let Joined {
        mut link,
        mut stream,
    } = join(alloc, &mut hops, &listening)?;
    let mut came = Vec::new(alloc);
    stream.write_all(b"220 ready\r\n")?;
    assert_eq!(rt; await_read(&mut hops, &mut link, &mut came)?, Got::Took(11));
    assert_eq!(rt; came.as_slice(), b"220 ready\r\n".as_slice());
    assert_eq!(rt; link.write(b"QUIT\r\n"), Put::Gave(6));
    let mut command = [0u8; 6];
    stream.read_exact(&mut command)?;
    assert_eq!(rt; &command, b"QUIT\r\n");
    drop(stream);
    assert_eq!(rt; await_read(&mut hops, &mut link, &mut came)?, Got::End);
    hops.close(alloc, link)?;
    Ok(())
}

#[test]
fn a_silent_server(rt: HostRuntime) -> Result<(), Fail> {
    let alloc = rt.alloc();
    let mut hops = TcpHops::new(alloc, rt)?;
    let listening = listen(rt)?;
    let Joined { mut link, stream } = join(alloc, &mut hops, &listening)?;
    let mut buf = [0u8; 64];
    for _ in 0..3 {
        assert_eq!(rt; link.read(&mut buf), Got::NotYet);
        hops.rest(&mut link);
    }
    drop(stream);
    hops.close(alloc, link)?;
    Ok(())
}

// Whether a connect fails, or else its link once nothing is awaited any more.
fn refuses(rt: HostRuntime, hop: &Hop) -> Result<bool, Fail> {
    let mut hops = TcpHops::new(rt.alloc(), rt)?;
    let mut came = Vec::new(rt.alloc());
    match hops.connect(rt.alloc(), hop) {
        Ok(mut link) => {
            let answer = await_read(&mut hops, &mut link, &mut came)?;
            Ok(answer == Got::Failed && link.write(b"QUIT\r\n") == Put::Failed)
        }
        Err(fault) => Ok(fault == NoLink::Failed),
    }
}

#[test]
fn a_port_without_a_server(rt: HostRuntime) -> Result<(), Fail> {
    let Listening { listener, hop } = listen(rt)?;
    drop(listener);
    assert!(rt; refuses(rt, &hop)?);
    Ok(())
}

// Writes until the link takes no more.
fn fill(link: &mut TcpLink) -> Put {
    let bytes = [b'x'; 4096];
    for _ in 0..100_000 {
        match link.write(&bytes) {
            Put::Gave(_) => {}
            answer => return answer,
        }
    }
    Put::Gave(0)
}

#[test]
fn a_server_that_reads_late(rt: HostRuntime) -> Result<(), Fail> {
    let alloc = rt.alloc();
    let mut hops = TcpHops::new(alloc, rt)?;
    let listening = listen(rt)?;
    let mut late = join(alloc, &mut hops, &listening)?;
    let mut other = join(alloc, &mut hops, &listening)?;
    assert_eq!(rt; fill(&mut late.link), Put::NotYet);
    // the other one goes on
    other.stream.write_all(b"220 ready\r\n")?;
    let mut came = Vec::new(alloc);
    let answer = await_read(&mut hops, &mut other.link, &mut came)?;
    assert_eq!(rt; answer, Got::Took(11));
    // and so does the first, once it is read
    assert_eq!(rt; take_and_write(&mut hops, &mut late)?, Put::Gave(1));
    Ok(())
}

// Reads at the server's side until a write of a byte is taken, behind a rest that hears of it.
fn take_and_write(hops: &mut TcpHops<HostRuntime>, late: &mut Joined) -> Result<Put, Fail> {
    let mut buf = [0u8; 65_536];
    for _ in 0..10_000 {
        late.stream.read_exact(&mut buf)?;
        match late.link.write(b"x") {
            Put::NotYet => hops.rest(&mut late.link),
            answer => return Ok(answer),
        }
    }
    Ok(Put::NotYet)
}
