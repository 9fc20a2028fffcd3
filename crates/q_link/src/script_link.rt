//! A link in memory, which follows a script. It tells what came and went until memory for what it
//! sends runs out, or a number that it tells would pass 2^64 - 1. Then it goes on, and tells
//! nothing any more. It is an error to read into an empty buffer, and to write no bytes.
ghost use Rattle.std.specs.Prelude.{◌≡◌, ◌<◌, [], length};
ghost use Rattle.std.specs.Option.{option_map_or};
ghost use Rattle.q_link.specs.Reads.{Fails, Reads, Writes};
ghost use Rattle.q_link.specs.Scripts.{next_bytes, read_answer, write_answer};
ghost use Rattle.q_link.specs.Playback.{IsFront};
ghost use Rattle.q_link.specs.ScriptLinks.{IsSent, IsWritten, after_read, fails, new_view, rested, wait_of, waits};

use crate::link_wait::LinkWait;
use crate::script::{Playback, Script, WritePlan};
use crate::{Got, Link, Put, Usage};
use q_model::Hop;
use std::alloc::Global;
use std::marker::Model;

/// A link in memory. A contract sees it as the rest of its script, and what is known of it.
#[derive(Drop)]
pub struct ScriptLink {
    pub(crate) playback: Playback,
    pub(crate) writes: WritePlan,
    pub(crate) faults: u64,
    pub(crate) wait: LinkWait,
    pub(crate) ended: bool,
    pub(crate) usage: Usage,
    pub(crate) hop: Hop,
    pub(crate) sent: Vec<u8>,
    pub(crate) not_yets: u64,
    // how many rests its hops had told when it was opened
    pub(crate) rests_before: u64,
    // whether it still tells
    pub(crate) tells: bool,
}

impl Model for ScriptLink {
    ghost use Rattle.q_link.specs.ScriptLinks.{ScriptLink as Scripted, told_while, wait_of};
    ghost use Rattle.q_link.specs.Scripts.{script_waits};

    ghost Value = { Scripted };

    ghost view = { λ l. record {
      script = record { steps = l.playback.rest; writes = l.writes };
      view = record {
        faults = l.faults;
        wait = wait_of l.wait;
        ended = l.ended;
        usage = l.usage;
        waits_left = script_waits (record { steps = l.playback.rest; writes = l.writes });
        told = told_while l.tells (record {
          hop = l.hop;
          received = l.playback.received;
          sent = l.sent.items;
          not_yets = l.not_yets;
          rests_before = l.rests_before;
        });
      };
    } };
}

impl ScriptLink {
    /// A link that follows a script, opened by hops that had told so many rests, and tell or don't.
    pub(crate) fn new(
        alloc: Global,
        hop: &Hop,
        script: Script,
        rests_before: u64,
        tells: bool,
    ) -> ScriptLink
        ensures script { result.script ≡ script }
        ensures view { result.view ≡ new_view script hop.now rests_before tells }
    {
        let Script { steps, writes } = script;
        ScriptLink {
            playback: Playback::new(steps),
            writes,
            faults: 0,
            wait: LinkWait::No,
            ended: false,
            usage: Usage::Open,
            hop: *hop,
            sent: Vec::new(alloc),
            not_yets: 0,
            rests_before,
            tells,
        }
    }

    /// The bytes that were sent, where they are told.
    pub(crate) fn sent(&self) -> &[u8]
        ensures { result.now ≡ option_map_or (λ t. t.sent) self.now.view.told [] }
    {
        if self.tells { &self.sent } else { &[] }
    }

    /// Waits no more.
    pub(crate) fn rest(&mut self)
        ensures { self.new ≡ rested self.old }
    {
        self.wait = LinkWait::No;
    }

    // Nothing came or went yet.
    fn put_off(&mut self, wait: LinkWait)
        ensures script { self.new.script ≡ self.old.script }
        ensures view { self.new.view ≡ waits (wait_of wait) self.old.view }
    {
        self.wait = wait;
        self.usage = self.usage.called();
        match self.not_yets.checked_add(1) {
            Some(count) => self.not_yets = count,
            None => self.tells = false,
        }
    }

    fn fail(&mut self)
        ensures script { self.new.script ≡ self.old.script }
        ensures view { self.new.view ≡ fails self.old.view }
        ensures counted { Fails self.old.view self.new.view }
    {
        self.wait = LinkWait::No;
        self.usage = self.usage.closed();
        self.faults = self.faults.saturating_add(1);
    }

    // Bytes were sent.
    fn keep_sent(&mut self, bytes: &[u8])
        ensures script { self.new.script ≡ self.old.script }
        ensures view { IsSent bytes.now self.old.view self.new.view }
    {
        self.wait = LinkWait::No;
        self.usage = self.usage.called();
        if self.tells {
            self.tells = self.sent.extend_from_slice(bytes).is_ok();
        }
    }
}

impl Link for ScriptLink {
    ghost view = { λ link. link.view };

    fn read(&mut self, buf: &mut [u8]) -> Got
        requires some { 0 < length buf.old }
        ensures reads { Reads self.old.view self.new.view result buf.new }
        // What it gives is what its script says.
        ensures answer { result ≡ read_answer self.old.script.steps (length buf.old) }
        ensures bytes { IsFront result (next_bytes self.old.script.steps) buf.new }
        ensures after { self.new ≡ after_read result buf.new self.old }
    {
        match self.playback.take(buf) {
            Got::Took(count) => {
                self.wait = LinkWait::No;
                self.usage = self.usage.called();
                Got::Took(count)
            }
            Got::NotYet => {
                self.put_off(LinkWait::ForRead);
                Got::NotYet
            }
            Got::End => {
                self.wait = LinkWait::No;
                self.ended = true;
                self.usage = self.usage.closed();
                Got::End
            }
            Got::Failed => {
                self.fail();
                Got::Failed
            }
        }
    }

    fn write(&mut self, bytes: &[u8]) -> Put
        requires some { 0 < length bytes.now }
        ensures writes { Writes self.old.view self.new.view result bytes.now }
        // What it takes is what its script says.
        ensures answer { result ≡ write_answer self.old.script.writes (length bytes.now) }
        ensures after { IsWritten result bytes.now self.old self.new }
    {
        match self.writes.next(bytes.len()) {
            Put::Gave(count) => {
                self.keep_sent(bytes);
                Put::Gave(count)
            }
            Put::NotYet => {
                self.put_off(LinkWait::ForWrite);
                Put::NotYet
            }
            Put::Failed => {
                self.fail();
                Put::Failed
            }
        }
    }
}
