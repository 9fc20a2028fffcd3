//! What a link in memory will give: the steps of its reads, and what its writes answer. It is an
//! error to take a step into an empty buffer.
ghost use Rattle.std.specs.Prelude.{◌≡◌, ◌<◌, ◌++◌, ◌∷◌, [], length, OnErr, OnOk, min, take};
ghost use Rattle.q_link.specs.Scripts.{empty_script, is_named, next_bytes, read_answer, steps_after, with_failing_write, with_not_yet_write, with_step, write_answer, writes_after, writes_waits};
ghost use Rattle.q_link.specs.WaitsLeft.{Spares};
ghost use Rattle.q_link.specs.Playback.{IsFront, received_after, step_of, steps_of};

use crate::piece::Piece;
use crate::{Got, Put};
use q_model::NoMemory;
use std::alloc::Global;
use std::marker::Model;

/// What a read meets.
#[derive(Drop)]
pub(crate) enum Step {
    Piece(Piece),
    NotYet,
    End,
    Fail,
}

/// What writes answer.
#[derive(Drop)]
pub(crate) struct WritePlan {
    // the numbers of writes, counted from 1
    not_yet: Vec<u64>,
    failing: Vec<u64>,
    // how many there were
    calls: u64,
}

impl Model for WritePlan {
    ghost use Rattle.q_link.specs.Scripts.{WritePlan as Planned};

    ghost Value = { Planned };

    ghost view = { λ w. record {
      not_yet = w.not_yet.items;
      failing = w.failing.items;
      calls = w.calls;
    } };
}

fn is_named(numbers: &[u64], number: u64) -> bool
    ensures { result ≡ is_named numbers.now number }
{
    numbers.iter().any(|k| *k == number)
}

impl WritePlan {
    /// What the next write answers, of so many bytes.
    pub(crate) fn next(&mut self, count: usize) -> Put
        ensures answer { result ≡ write_answer self.old count }
        ensures after { self.new ≡ writes_after self.old }
        ensures spares { Spares 0 (writes_waits self.old) (writes_waits self.new) }
        ensures spends { result ≡ Put.NotYet
            → Spares 1 (writes_waits self.old) (writes_waits self.new) }
    {
        self.calls = self.calls.saturating_add(1);
        if is_named(&self.failing, self.calls) {
            return Put::Failed;
        }
        if is_named(&self.not_yet, self.calls) {
            return Put::NotYet;
        }
        Put::Gave(count)
    }
}

/// What a link will give.
#[derive(Drop)]
pub(crate) struct Script {
    pub steps: Vec<Step>,
    pub writes: WritePlan,
}

impl Model for Script {
    ghost use Rattle.q_link.specs.Scripts.{Script as Scripted};
    ghost use Rattle.q_link.specs.Playback.{steps_of};

    ghost Value = { Scripted };

    ghost view = { λ s. record { steps = steps_of s.steps.items; writes = s.writes } };
}

impl Script {
    pub(crate) fn new(alloc: Global) -> Script
        ensures { result ≡ empty_script }
    {
        Script {
            steps: Vec::new(alloc),
            writes: WritePlan {
                not_yet: Vec::new(alloc),
                failing: Vec::new(alloc),
                calls: 0,
            },
        }
    }

    pub(crate) fn add(&mut self, step: Step) -> Result<(), NoMemory>
        ensures ok { OnOk result (self.new ≡ with_step (step_of step) self.old) }
        ensures err { OnErr result (self.new ≡ self.old) }
    {
        self.steps.push(step)?;
        Ok(())
    }

    pub(crate) fn write_not_yet(&mut self, call: u64) -> Result<(), NoMemory>
        ensures ok { OnOk result (self.new ≡ with_not_yet_write call self.old) }
        ensures err { OnErr result (self.new ≡ self.old) }
    {
        self.writes.not_yet.push(call)?;
        Ok(())
    }

    pub(crate) fn write_fails(&mut self, call: u64) -> Result<(), NoMemory>
        ensures ok { OnOk result (self.new ≡ with_failing_write call self.old) }
        ensures err { OnErr result (self.new ≡ self.old) }
    {
        self.writes.failing.push(call)?;
        Ok(())
    }
}

/// A place in the steps of a script.
#[derive(Drop)]
pub(crate) struct Playback {
    steps: Vec<Step>,
    // the index of the next step, and how many bytes of its piece came
    next: usize,
    at: usize,
}

impl Model for Playback {
    ghost use Rattle.std.specs.Prelude.{drop};
    ghost use Rattle.q_link.specs.Playback.{IsPlace, Played, played, steps_of};

    ghost Value = { Played };

    ghost view = { λ p. played (steps_of p.steps.items) p.next p.at };

    ghost invariant = { λ p. IsPlace p.at (drop p.next (steps_of p.steps.items)) };
}

// Copies the front.
fn copy_front(to: &mut [u8], from: &[u8]) -> usize
    ensures count { result ≡ min (length to.old) (length from.now) }
    ensures front { take result to.new ≡ take result from.now }
{
    let count = to.len().min(from.len());
    let (front, _) = to.split_at_mut(count);
    let (bytes, _) = from.split_at(count);
    front.copy_from_slice(bytes);
    count
}

impl Playback {
    pub(crate) fn new(steps: Vec<Step>) -> Playback
        ensures received { result.received ≡ [] }
        ensures rest { result.rest ≡ steps_of steps.items }
    {
        Playback {
            steps,
            next: 0,
            at: 0,
        }
    }

    /// Takes the next step, or the front of its piece.
    pub(crate) fn take(&mut self, buf: &mut [u8]) -> Got
        requires { 0 < length buf.old }
        ensures answer { result ≡ read_answer self.old.rest (length buf.old) }
        ensures rest { self.new.rest ≡ steps_after self.old.rest (length buf.old) }
        ensures bytes { IsFront result (next_bytes self.old.rest) buf.new }
        ensures received { self.new.received ≡ received_after result buf.new self.old.received }
    {
        match self.steps.get(self.next) {
            None => Got::NotYet,
            Some(Step::NotYet) => {
                self.next += 1;
                Got::NotYet
            }
            Some(Step::End) => {
                self.next += 1;
                Got::End
            }
            Some(Step::Fail) => {
                self.next += 1;
                Got::Failed
            }
            Some(Step::Piece(piece)) => {
                let (_, rest) = piece.bytes.split_at(self.at);
                let count = copy_front(buf, rest);
                if count == rest.len() {
                    self.next += 1;
                    self.at = 0;
                } else {
                    self.at += count;
                }
                Got::Took(count)
            }
        }
    }
}
