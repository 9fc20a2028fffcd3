//! Bytes in memory as a stream.
ghost use Rattle.std.specs.Prelude.{◌≡◌, ◌≤◌, ◌==◌, ◌<◌, length, take, min, IfOk};
ghost use Rattle.std.specs.List.{list_any};
ghost use Rattle.q_stream.specs.Takes.{TakesFront, HasCause};
ghost use Rattle.q_stream.specs.Script.{answer, script_after, script_of};

use crate::{Source, Take};
use q_model::NoMemory;
use std::alloc::Global;
use std::marker::Model;

/// Bytes in memory, which come in pieces, with calls that are made to fail. A contract sees it as
/// the script of what it will give.
#[derive(Drop)]
pub struct MemSource {
    bytes: Vec<u8>,
    // the offset of the next byte
    at: usize,
    piece: usize,
    fails: Vec<u64>,
    // how many calls there were
    calls: u64,
    faults: u64,
}

impl Model for MemSource {
    ghost use Rattle.std.specs.Prelude.{◌≤◌, drop, vec_len};
    ghost use Rattle.q_stream.specs.Script.{Script};

    ghost Value = { Script };

    ghost view = { λ s. record {
      rest = drop s.at s.bytes.items;
      piece = s.piece;
      fails = s.fails.items;
      calls = s.calls;
      faults = s.faults;
    } };

    ghost invariant = { λ s. (s.at ≤ vec_len s.bytes) × (1 ≤ s.piece) };
}

impl MemSource {
    /// A source of these bytes, at most `piece` of them a call. The calls whose numbers, counted
    /// from 1, stand in `fails` fail.
    pub fn new(
        alloc: Global,
        bytes: &[u8],
        piece: usize,
        fails: &[u64],
    ) -> Result<MemSource, NoMemory>
        requires { 1 ≤ piece }
        ensures { IfOk result (λ s. s ≡ script_of bytes.now piece fails.now) }
    {
        let bytes = Vec::from_slice(alloc, bytes)?;
        let fails = Vec::from_slice(alloc, fails)?;
        Ok(MemSource {
            bytes,
            at: 0,
            piece,
            fails,
            calls: 0,
            faults: 0,
        })
    }
}

fn has_number(numbers: &[u64], number: u64) -> bool
    ensures { result ≡ list_any (λ k. k == number) numbers.now }
{
    numbers.iter().any(|k| *k == number)
}

// Copies the front, at most so many bytes.
fn copy_front(to: &mut [u8], from: &[u8], most: usize) -> usize
    ensures count { result ≡ min most (min (length to.old) (length from.now)) }
    ensures front { take result to.new ≡ take result from.now }
{
    let count = most.min(to.len().min(from.len()));
    let (front, _) = to.split_at_mut(count);
    let (bytes, _) = from.split_at(count);
    front.copy_from_slice(bytes);
    count
}

impl Source for MemSource {
    ghost use Rattle.std.specs.Prelude.{Some};

    ghost left = { λ s. Some s.rest };

    ghost faults = { λ s. s.faults };

    fn take(&mut self, buf: &mut [u8]) -> Take
        requires { 0 < length buf.old }
        ensures bytes { TakesFront (Some self.old.rest) (Some self.new.rest) result buf.new }
        ensures cause { HasCause self.old.faults self.new.faults result }
        // What it gives is what its script says.
        ensures answer { result ≡ answer self.old (length buf.old) }
        ensures after { self.new ≡ script_after self.old (length buf.old) }
    {
        self.calls = self.calls.saturating_add(1);
        if has_number(&self.fails, self.calls) {
            self.faults = self.faults.saturating_add(1);
            return Take::Failed;
        }
        let (_, rest) = self.bytes.split_at(self.at);
        if rest.is_empty() {
            return Take::End;
        }
        let count = copy_front(buf, rest, self.piece);
        self.at += count;
        Take::Took(count)
    }
}
