//! Which links are ready, as a wait for them hears. Nothing here is an error to call.
ghost use Rattle.std.specs.Prelude.{◌≡◌, IfOk};
ghost use Rattle.q_tcp_hops.specs.TcpLinks.{fresh};

use crate::TcpLink;
use crate::readiness::Readiness;
use mio::event::Events;
use mio::net::{TcpListener, TcpStream};
use mio::{Interest, Poll, Token};
use slab::Slab;
use std::alloc::Global;
use std::io;
use std::net::Net;
use std::rc::Rc;
use std::time::Duration;

/// How long a rest waits at most, in milliseconds.
const REST_MILLIS: u64 = 10;

/// How many links that are ready one wait hears of; the next one hears of those left.
const READY_LINKS: usize = 64;

/// Under which a listener is told of; no link has so high a key.
const LISTENER: Token = Token(usize::MAX);

/// The links that are open, and what the system said of each.
#[derive(Drop)]
pub(crate) struct Watch {
    // tells which links are ready; a link that is dropped leaves it by itself
    poll: Poll,
    events: Events,
    // of each link that isn't closed, under its token
    links: Slab<Rc<Readiness>>,
}

impl Watch {
    /// One without a link. An error is the system's, or want of memory.
    pub(crate) fn new(alloc: Global, net: &impl Net) -> io::Result<Watch> {
        Ok(Watch {
            poll: Poll::new(net)?,
            events: Events::with_capacity(alloc, READY_LINKS)?,
            links: Slab::new(alloc),
        })
    }

    /// How many links are open.
    pub(crate) fn len(&self) -> usize {
        self.links.len()
    }

    // Has the system tell of a stream under this key.
    fn begin(&self, stream: &mut TcpStream, key: usize) -> io::Result<()> {
        // what is sent goes at once, also behind what the other side hasn't confirmed
        stream.set_nodelay(true)?;
        let both = Interest::READABLE | Interest::WRITABLE;
        self.poll.registry().register(stream, Token(key), both)
    }

    /// A link over a stream that doesn't block, until it is removed.
    pub(crate) fn add(&mut self, alloc: Global, mut stream: TcpStream) -> io::Result<TcpLink>
        ensures { IfOk result (λ link. link ≡ fresh) }
    {
        let ready = Rc::new(alloc, Readiness::new())?;
        let key = self.links.insert(ready.clone()?)?;
        match self.begin(&mut stream, key) {
            Ok(()) => Ok(TcpLink::new(stream, ready, key)),
            Err(error) => {
                self.links.try_remove(key);
                Err(error)
            }
        }
    }

    /// The link with this key is closed.
    pub(crate) fn remove(&mut self, key: usize) {
        self.links.try_remove(key);
    }

    // Notes which links the last wait found ready.
    fn note_ready(&self) {
        for event in self.events.iter() {
            if let Some(ready) = self.links.get(event.token().0) {
                ready.note(event);
            }
        }
    }

    // Waits until the system tells of something, or so long.
    fn wait(&mut self, longest: Option<Duration>) -> io::Result<()> {
        self.poll.poll(&mut self.events, longest)?;
        self.note_ready();
        Ok(())
    }

    /// Waits until any link is ready, ten milliseconds at most.
    pub(crate) fn rest(&mut self) {
        // One that fails is a short rest: the next calls ask each link anyway.
        let _ = self.wait(Some(Duration::from_millis(REST_MILLIS)));
    }

    /// Has the system tell of a listener.
    pub(crate) fn listen(&self, listener: &mut TcpListener) -> io::Result<()> {
        self.poll
            .registry()
            .register(listener, LISTENER, Interest::READABLE)
    }

    /// Waits until a connection comes to a listener that the system tells of, or a link is ready.
    pub(crate) fn await_peer(&mut self, listener: &mut TcpListener) -> io::Result<()> {
        // also of a connection that is there already
        self.poll
            .registry()
            .reregister(listener, LISTENER, Interest::READABLE)?;
        self.wait(None)
    }
}
