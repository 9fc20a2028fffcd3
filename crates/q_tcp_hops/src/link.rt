//! A connection over TCP whose reads and writes answer at once. It is an error to read into an
//! empty buffer, and to write no bytes.
ghost use Rattle.std.specs.Prelude.{◌≡◌, ◌<◌, length};
ghost use Rattle.q_link.specs.Reads.{Fails, Reads, Writes};
ghost use Rattle.q_tcp_hops.specs.TcpLinks.{called, fresh, rested};
ghost use Rattle.q_tcp_hops.specs.Waits.{wait_of};

use crate::link_wait::LinkWait;
use crate::readiness::Readiness;
use mio::net::TcpStream;
use q_link::{Got, Link, Put, Usage};
use std::io;
use std::io::{ErrorKind, Read, Write};
use std::marker::Model;
use std::rc::Rc;

/// A connection. A contract sees how often it failed, for what it waits and whether it ended.
#[derive(Drop)]
pub struct TcpLink {
    stream: TcpStream,
    ready: Rc<Readiness>,
    // under which the hops have its readiness
    pub(crate) key: usize,
    pub(crate) faults: u64,
    waiting: LinkWait,
    pub(crate) ended: bool,
    usage: Usage,
}

impl Model for TcpLink {
    ghost use Rattle.std.specs.Prelude.{None};
    ghost use Rattle.q_link.specs.Views.{View};
    ghost use Rattle.q_tcp_hops.specs.Waits.{wait_of};

    ghost Value = { View };

    ghost view = { λ l. record {
      faults = l.faults;
      wait = wait_of l.waiting;
      ended = l.ended;
      usage = l.usage;
      waits_left = None;
      told = None;
    } };
}

// The connection isn't there yet, nothing came, or there is no room for what is sent: the system says
// when another call may do. Or a signal came first, and it may at once.
fn is_not_yet(error: &io::Error) -> bool {
    matches!(
        error.kind(),
        ErrorKind::WouldBlock | ErrorKind::Interrupted | ErrorKind::NotConnected
    )
}

// Another call may do at once.
fn is_at_once(error: &io::Error) -> bool {
    error.kind() == ErrorKind::Interrupted
}

impl TcpLink {
    /// A link over a stream that doesn't block.
    pub(crate) fn new(stream: TcpStream, ready: Rc<Readiness>, key: usize) -> TcpLink
        ensures { result ≡ fresh }
    {
        TcpLink {
            stream,
            ready,
            key,
            faults: 0,
            waiting: LinkWait::No,
            ended: false,
            usage: Usage::Open,
        }
    }

    /// Waits no more.
    pub(crate) fn rest(&mut self)
        ensures { self.new ≡ rested self.old }
    {
        self.waiting = LinkWait::No;
    }

    /// A call answered neither `End` nor `Failed`.
    pub(crate) fn go_on(&mut self, waiting: LinkWait)
        ensures { self.new ≡ called (wait_of waiting) self.old }
    {
        self.waiting = waiting;
        self.usage = self.usage.called();
    }

    fn fail(&mut self)
        ensures { Fails self.old self.new }
    {
        self.waiting = LinkWait::No;
        self.usage = self.usage.closed();
        self.faults = self.faults.saturating_add(1);
    }
}

impl Link for TcpLink {
    ghost view = { λ link. link };

    fn read(&mut self, buf: &mut [u8]) -> Got
        requires some { 0 < length buf.old }
        ensures reads { Reads self.old self.new result buf.new }
    {
        if !self.ready.reads.get() {
            self.go_on(LinkWait::ForRead);
            return Got::NotYet;
        }
        match self.stream.read(buf) {
            Ok(0) => {
                self.waiting = LinkWait::No;
                self.ended = true;
                self.usage = self.usage.closed();
                Got::End
            }
            Ok(count) => {
                self.go_on(LinkWait::No);
                Got::Took(count)
            }
            Err(error) if is_not_yet(&error) => {
                self.ready.reads.set(is_at_once(&error));
                self.go_on(LinkWait::ForRead);
                Got::NotYet
            }
            Err(_) => {
                self.fail();
                Got::Failed
            }
        }
    }

    fn write(&mut self, bytes: &[u8]) -> Put
        requires some { 0 < length bytes.now }
        ensures writes { Writes self.old self.new result bytes.now }
    {
        if !self.ready.writes.get() {
            self.go_on(LinkWait::ForWrite);
            return Put::NotYet;
        }
        match self.stream.write(bytes) {
            Ok(0) => {
                self.go_on(LinkWait::ForWrite);
                Put::NotYet
            }
            Ok(count) => {
                self.go_on(LinkWait::No);
                Put::Gave(count)
            }
            Err(error) if is_not_yet(&error) => {
                self.ready.writes.set(is_at_once(&error));
                self.go_on(LinkWait::ForWrite);
                Put::NotYet
            }
            Err(_) => {
                self.fail();
                Put::Failed
            }
        }
    }
}
