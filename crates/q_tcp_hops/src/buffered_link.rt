//! A connection that reads ahead. It is an error to read into an empty buffer, and to write no
//! bytes.
ghost use Rattle.std.specs.Prelude.{◌≡◌, ◌<◌, length};
ghost use Rattle.q_link.specs.Reads.{Reads, Writes};
ghost use Rattle.q_tcp_hops.specs.TcpLinks.{rested, untold};

use crate::TcpLink;
use crate::ahead::Ahead;
use crate::link_wait::LinkWait;
use q_link::{Got, Link, Put};
use std::marker::Model;

/// A connection that asks the system for many bytes at once, so that a reader may take one at a time. An
/// end or a failure is answered behind all bytes that came before. A contract sees it as its
/// connection.
#[derive(Drop)]
pub struct BufferedLink {
    link: TcpLink,
    ahead: Ahead,
}

impl Model for BufferedLink {
    ghost use Rattle.q_link.specs.Views.{View};
    ghost use Rattle.q_tcp_hops.specs.TcpLinks.{untold};

    ghost Value = { View };

    ghost view = { λ l. untold l.link };
}

impl BufferedLink {
    pub(crate) fn new(link: TcpLink) -> BufferedLink
        ensures { result ≡ untold link }
    {
        BufferedLink {
            link,
            ahead: Ahead::new(),
        }
    }

    /// Under which its readiness is kept.
    pub(crate) fn key(&self) -> usize {
        self.link.key
    }

    /// How often it failed.
    pub(crate) fn faults(&self) -> u64
        ensures { result ≡ self.now.faults }
    {
        self.link.faults
    }

    /// Waits no more.
    pub(crate) fn rest(&mut self)
        ensures { self.new ≡ rested self.old }
    {
        self.link.rest();
    }
}

impl Link for BufferedLink {
    ghost view = { λ link. link };

    fn read(&mut self, buf: &mut [u8]) -> Got
        requires some { 0 < length buf.old }
        ensures reads { Reads self.old self.new result buf.new }
    {
        if !self.ahead.is_empty() {
            self.link.go_on(LinkWait::No);
            return Got::Took(self.ahead.give(buf));
        }
        match self.ahead.fill(&mut self.link) {
            Got::Took(_) => Got::Took(self.ahead.give(buf)),
            Got::NotYet => Got::NotYet,
            Got::End => Got::End,
            Got::Failed => Got::Failed,
        }
    }

    fn write(&mut self, bytes: &[u8]) -> Put
        requires some { 0 < length bytes.now }
        ensures writes { Writes self.old self.new result bytes.now }
    {
        self.link.write(bytes)
    }
}
