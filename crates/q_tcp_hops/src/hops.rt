//! Hops whose links are connections over TCP. It is an error to rest for a link that doesn't wait.
ghost use Rattle.std.specs.Prelude.{◌≡◌, IfOk};
ghost use Rattle.q_tcp_hops.specs.TcpLinks.{fresh, no_calls};

use crate::TcpLink;
use crate::descriptors::most_links;
use crate::watch::Watch;
use mio::net::TcpStream;
use q_link::{Hops, NoLink, address_of};
use q_model::{Hop, NoMemory};
use std::alloc::Global;
use std::io;
use std::io::ErrorKind;
use std::marker::Model;
use std::net::{Net, SocketAddr};

/// The next hops that connections are opened to. A contract sees their counts.
#[derive(Drop)]
pub struct TcpHops<N: Net + Drop> {
    net: N,
    watch: Watch,
    most_links: usize,
    // how many connections weren't begun, since so many links are open
    crowded_out: u64,
    connect_faults: u64,
    rests: u64,
    link_faults: u64,
    link_ends: u64,
}

impl<N: Net + Drop> Model for TcpHops<N> {
    ghost use Rattle.std.specs.Prelude.{None};
    ghost use Rattle.q_link.specs.Records.{HopsView};

    ghost Value = { HopsView };

    ghost view = { λ h. record {
      connect_faults = h.connect_faults;
      rests = h.rests;
      link_faults = h.link_faults;
      link_ends = h.link_ends;
      waits_left = None;
      told = None;
    } };
}

impl<N: Net + Drop> TcpHops<N> {
    /// Hops without a link. An error is the system's, or want of memory.
    pub fn new(alloc: Global, net: N) -> io::Result<TcpHops<N>>
        ensures { IfOk result (λ hops. hops ≡ no_calls) }
    {
        let watch = Watch::new(alloc, &net)?;
        Ok(TcpHops {
            net,
            watch,
            most_links: most_links(),
            crowded_out: 0,
            connect_faults: 0,
            rests: 0,
            link_faults: 0,
            link_ends: 0,
        })
    }

    // Opens a link, and doesn't wait until it is connected.
    fn open(&mut self, alloc: Global, address: SocketAddr) -> io::Result<TcpLink>
        ensures counts { self.new ≡ self.old }
        ensures link { IfOk result (λ link. link ≡ fresh) }
    {
        let stream = TcpStream::connect(&self.net, address)?;
        self.watch.add(alloc, stream)
    }

    /// How many connections weren't begun, since no more files may be open in the process
    /// (getrlimit(2)): those to their hops count as failed.
    pub fn crowded_out(&self) -> u64 {
        self.crowded_out
    }
}

impl<N: Net + Drop> Hops for TcpHops<N> {
    type Link = TcpLink;

    ghost use Rattle.std.specs.Prelude.{None};

    ghost view = { λ hops. record hops { told = None } };

    fn connect(&mut self, alloc: Global, hop: &Hop) -> Result<TcpLink, NoLink> {
        let Some(address) = address_of(hop) else {
            return Err(NoLink::NoRoute);
        };
        // the descriptors that are left are kept for the spool
        let opened = if self.watch.len() < self.most_links {
            Some(self.open(alloc, SocketAddr::V4(address)))
        } else {
            self.crowded_out = self.crowded_out.saturating_add(1);
            None
        };
        match opened {
            Some(Ok(link)) => Ok(link),
            Some(Err(error)) if error.kind() == ErrorKind::OutOfMemory => Err(NoLink::NoMemory),
            _ => {
                self.connect_faults = self.connect_faults.saturating_add(1);
                Err(NoLink::Failed)
            }
        }
    }

    fn rest(&mut self, link: &mut TcpLink) {
        link.rest();
        self.rests = self.rests.saturating_add(1);
        self.watch.rest();
    }

    fn close(&mut self, _alloc: Global, link: TcpLink) -> Result<(), NoMemory> {
        self.watch.remove(link.key);
        self.link_faults = self.link_faults.saturating_add(link.faults);
        self.link_ends = self.link_ends.saturating_add(u64::from(link.ended));
        Ok(())
    }
}
