//! A door on a port of 127.0.0.1. It is an error to accept where it isn't bound, and to rest for a
//! link that doesn't wait.
ghost use Rattle.std.specs.Prelude.{◌≡◌, true, IfOk, IfSome};
ghost use Rattle.q_tcp_hops.specs.TcpDoors.{unbound, Refuses};
ghost use Rattle.q_tcp_hops.specs.TcpLinks.{fresh};

use crate::BufferedLink;
use crate::watch::Watch;
use mio::net::TcpListener;
use q_door::{Door, DoorError};
use q_model::NoMemory;
use std::alloc::Global;
use std::io;
use std::io::ErrorKind;
use std::marker::Model;
use std::net::{Ipv4Addr, Net, SocketAddr, SocketAddrV4};

/// A port of 127.0.0.1, at which clients are accepted. A contract sees its counts, and whether it is
/// bound.
#[derive(Drop)]
pub struct TcpDoor<N: Net + Drop> {
    net: N,
    watch: Watch,
    // where a bind answered Ok
    listener: Option<TcpListener>,
    door_faults: u64,
    rests: u64,
    link_faults: u64,
    // why the last bind or accept failed
    fault: Option<io::Error>,
}

impl<N: Net + Drop> Model for TcpDoor<N> {
    ghost use Rattle.std.specs.Prelude.{is_some, None};
    ghost use Rattle.q_door.specs.Doors.{DoorView};

    ghost Value = { DoorView };

    ghost view = { λ d. record {
      door_faults = d.door_faults;
      rests = d.rests;
      link_faults = d.link_faults;
      bound = is_some d.listener;
      waits_left = None;
      told = None;
    } };
}

// The client went before it was accepted, or a signal came first: another one may be there.
fn is_passing(error: &io::Error) -> bool {
    matches!(
        error.kind(),
        ErrorKind::WouldBlock | ErrorKind::Interrupted | ErrorKind::ConnectionAborted
    )
}

impl<N: Net + Drop> TcpDoor<N> {
    /// A door that isn't bound. An error is the system's, or want of memory.
    pub fn new(alloc: Global, net: N) -> io::Result<TcpDoor<N>>
        ensures { IfOk result (λ door. door ≡ unbound) }
    {
        let watch = Watch::new(alloc, &net)?;
        Ok(TcpDoor {
            net,
            watch,
            listener: None,
            door_faults: 0,
            rests: 0,
            link_faults: 0,
            fault: None,
        })
    }

    /// Why the last bind or accept failed, as the system says it.
    pub fn fault(&self) -> Option<&io::Error> {
        self.fault.as_ref()
    }

    // Counts and keeps a failure, but not want of memory.
    fn refuse(&mut self, error: io::Error) -> DoorError
        ensures { Refuses result self.old self.new }
    {
        if error.kind() == ErrorKind::OutOfMemory {
            return DoorError::NoMemory;
        }
        self.door_faults = self.door_faults.saturating_add(1);
        self.fault = Some(error);
        DoorError::Failed
    }

    // A listener on a port, of which the system tells when a connection comes.
    fn listen(&self, port: u16) -> io::Result<TcpListener> {
        let address = SocketAddr::V4(SocketAddrV4::new(Ipv4Addr::LOCALHOST, port));
        let mut listener = TcpListener::bind(&self.net, address)?;
        self.watch.listen(&mut listener)?;
        Ok(listener)
    }

    // The next connection, where one is there.
    fn accept_now(&mut self, alloc: Global) -> io::Result<Option<BufferedLink>>
        requires { self.old.bound ≡ true }
        ensures counts { self.new ≡ self.old }
        ensures link { IfOk result (λ found. IfSome found (λ link. link ≡ fresh)) }
    {
        match self.listener.as_ref().unwrap().accept() {
            Ok((stream, _)) => {
                let link = self.watch.add(alloc, stream)?;
                Ok(Some(BufferedLink::new(link)))
            }
            Err(error) if is_passing(&error) => Ok(None),
            Err(error) => Err(error),
        }
    }

    // Waits until a connection may be there.
    fn await_peer(&mut self) -> io::Result<()>
        ensures { self.new ≡ self.old }
    {
        match &mut self.listener {
            Some(listener) => self.watch.await_peer(listener),
            None => Ok(()),
        }
    }

    // The next connection, for which it waits.
    fn accept_next(&mut self, alloc: Global) -> io::Result<BufferedLink>
        requires { self.old.bound ≡ true }
        ensures counts { self.new ≡ self.old }
        ensures link { IfOk result (λ link. link ≡ fresh) }
    {
        for _ in 0..u64::MAX {
            if let Some(link) = self.accept_now(alloc)? {
                return Ok(link);
            }
            self.await_peer()?;
        }
        Err(io::Error::from(ErrorKind::TimedOut))
    }
}

impl<N: Net + Drop> Door for TcpDoor<N> {
    type Link = BufferedLink;

    ghost view = { λ door. door };

    fn bind(&mut self, port: u16) -> Result<(), DoorError> {
        self.fault = None;
        match self.listen(port) {
            Ok(listener) => {
                self.listener = Some(listener);
                Ok(())
            }
            Err(error) => Err(self.refuse(error)),
        }
    }

    fn accept(&mut self, alloc: Global) -> Result<BufferedLink, DoorError> {
        self.fault = None;
        match self.accept_next(alloc) {
            Ok(link) => Ok(link),
            Err(error) => Err(self.refuse(error)),
        }
    }

    fn rest(&mut self, link: &mut BufferedLink) {
        link.rest();
        self.rests = self.rests.saturating_add(1);
        self.watch.rest();
    }

    fn close(&mut self, _alloc: Global, link: BufferedLink) -> Result<(), NoMemory> {
        self.watch.remove(link.key());
        self.link_faults = self.link_faults.saturating_add(link.faults());
        Ok(())
    }
}
