//! A whole delivery over TCP.
ghost use Rattle.q_message.specs.NewFile.{is_receiver};
ghost use Rattle.std.specs.List.{list_all};
ghost use Rattle.std.specs.Prelude.{◌≡◌, false, true, IfOk, length};
ghost use Rattle.q_link.specs.declared.usage.Usage.TheVariants.{Open};

use crate::servers::{Joined, RESTS, join, listen};
use q_host::Host;
use q_link::Hops;
use q_message::{read_head, write_message};
use q_model::{Address, Addresses, Area, Head, Outcome, Receiver, SiteState, Spot};
use q_session::{Polled, Session};
use q_silent_host::{FIRST, SilentHost, name};
use q_tcp_hops::{TcpHops, TcpLink};
use std::alloc::Global;
use std::io;
use std::io::{ErrorKind, Read, Write};
use std::net::TcpStream;
use std::test::Fail;

/// What the server says: a greeting, and an answer to each command and to the content.
const REPLIES: [&str; 6] = [
    "220 ready\r\n",
    "250-hello\r\n250 8BITMIME\r\n",
    "250 ok\r\n",
    "250 ok\r\n",
    "354 go on\r\n",
    "250 taken\r\n",
];

/// What it hears.
const HEARD: &[u8] = b"EHLO localhost\r\nMAIL FROM:<a@x.example>\r\nRCPT TO:<b@y.example>\r\n\
    DATA\r\nHello\r\n..\r\n.\r\nQUIT\r\n";

/// The server's side of a link.
#[derive(Drop)]
struct Server {
    stream: TcpStream,
    heard: Vec<u8>,
    // how many replies it sent, and how many bytes it had heard then
    sent: usize,
    answered: usize,
}

impl Server {
    fn new(alloc: Global, stream: TcpStream) -> io::Result<Server> {
        stream.set_nonblocking(true)?;
        Ok(Server {
            stream,
            heard: Vec::new(alloc),
            sent: 0,
            answered: 0,
        })
    }

    // Hears what came.
    fn hear(&mut self) -> io::Result<()> {
        let mut buf = [0u8; 512];
        for _ in 0..RESTS {
            match self.stream.read(&mut buf) {
                Ok(0) => break,
                Ok(count) => self.heard.extend_from_slice(&buf[..count])?,
                Err(error) if error.kind() == ErrorKind::WouldBlock => break,
                Err(error) => return Err(error),
            }
        }
        Ok(())
    }

    // Whether the next reply is due: at once, behind a command, or behind the content.
    fn is_due(&self) -> bool {
        let Some(said) = self.heard.get(self.answered..) else {
            return false;
        };
        match self.sent {
            0 => true,
            5 => said.ends_with(b"\r\n.\r\n"),
            _ => said.ends_with(b"\r\n"),
        }
    }

    // Hears what came, and answers it where it is whole.
    fn answer(&mut self) -> io::Result<()> {
        self.hear()?;
        if !self.is_due() {
            return Ok(());
        }
        if let Some(reply) = REPLIES.get(self.sent) {
            self.stream.write_all(reply.as_bytes())?;
            self.answered = self.heard.len();
            self.sent = self.sent.saturating_add(1);
        }
        Ok(())
    }
}

fn address(text: &str) -> Result<Address, Fail> {
    Ok(Address::new(text.as_bytes()).ok_or("no address")?)
}

fn recipients(alloc: Global) -> Result<Addresses, Fail>
    ensures one { IfOk result (λ to. length to ≡ 1) }
    ensures others { IfOk result (λ to. list_all is_receiver to ≡ true) }
{
    let mut to = Addresses::new(alloc);
    to.push(Receiver {
        address: address("b@y.example")?,
        original: None,
    })?;
    Ok(to)
}

// A host with a message in active.
fn spool(alloc: Global, to: &Addresses) -> Result<(SilentHost, Spot), Fail>
    requires one { length to.now ≡ 1 }
    requires others { list_all is_receiver to.now ≡ true }
{
    let name = name(FIRST)?;
    let head = Head {
        sender: Some(address("a@x.example")?),
        arrival: 1000,
    };
    let bytes = write_message(alloc, &head, to, b"Hello\n.\n")?;
    let mut host = SilentHost::new(alloc);
    host.put(Area::Active, name, bytes.as_slice())?;
    let spot = Spot {
        area: Area::Active,
        name,
    };
    Ok((host, spot))
}

// A delivery of it.
fn begin(alloc: Global, host: &mut SilentHost, spot: Spot, to: &Addresses) -> Result<Session, Fail>
    ensures { IfOk result (λ session. session.over ≡ false) }
{
    let file = read_head(host, spot)?;
    Ok(Session::new(alloc, spot, &file, to, 1000)?)
}

// Polls by turns with the server until the delivery is over, and says how it ended.
fn poll_all(
    host: &mut SilentHost,
    session: &mut Session,
    hops: &mut TcpHops<HostRuntime>,
    link: &mut TcpLink,
    server: &mut Server,
) -> Result<SiteState, Fail>
    requires goes_on { session.old.over ≡ false }
    requires ended { link.old.ended ≡ false }
    requires usable { link.old.usage ≡ Open }
{
    for _ in 0..RESTS {
        if let Polled::Over { site } = session.poll(host, link, 1000)? {
            return Ok(site);
        }
        server.answer()?;
        hops.rest(link);
    }
    Err(Fail::from("never over"))
}

// Delivers a message to one recipient over a link, and says how it ended.
fn deliver(
    alloc: Global,
    hops: &mut TcpHops<HostRuntime>,
    link: &mut TcpLink,
    server: &mut Server,
) -> Result<(SiteState, Vec<Outcome>), Fail>
    requires ended { link.old.ended ≡ false }
    requires usable { link.old.usage ≡ Open }
{
    let to = recipients(alloc)?;
    let (mut host, spot) = spool(alloc, &to)?;
    let mut session = begin(alloc, &mut host, spot, &to)?;
    let site = poll_all(&mut host, &mut session, hops, link, server)?;
    let outcomes = session.outcomes().as_slice().to_vec(alloc)?;
    Ok((site, outcomes))
}

#[test]
fn a_delivery(rt: HostRuntime) -> Result<(), Fail> {
    let alloc = rt.alloc();
    let mut hops = TcpHops::new(alloc, rt)?;
    let listening = listen(rt)?;
    let Joined { mut link, stream } = join(alloc, &mut hops, &listening)?;
    let mut server = Server::new(alloc, stream)?;
    let (site, outcomes) = deliver(alloc, &mut hops, &mut link, &mut server)?;
    assert_eq!(rt; site, SiteState::Up);
    assert_eq!(rt; outcomes.as_slice(), [Outcome::Ok].as_slice());
    hops.close(alloc, link)?;
    server.hear()?;
    assert_eq!(rt; server.heard.as_slice(), HEARD);
    Ok(())
}
