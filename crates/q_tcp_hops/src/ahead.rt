//! Bytes of a connection that were read and not given yet.
ghost use Rattle.std.specs.Prelude.{◌++◌, ◌==◌, ◌≡◌, ◌<◌, ◌≤◌, [], length, take};
ghost use Rattle.q_link.specs.Reads.{Reads};

use q_link::{Got, Link};
use std::marker::Model;

/// How many bytes are read at once.
const MOST: usize = 4096;

/// Bytes that were read and not given yet, 4,096 at most. A contract sees them as a list. It is an error
/// to read more while some are left, and to give where none are, or into an empty buffer.
#[derive(Drop)]
pub(crate) struct Ahead {
    bytes: [u8; MOST],
    // where those that are left begin and end
    from: usize,
    to: usize,
}

impl Model for Ahead {
    ghost use Rattle.std.specs.Prelude.{◌≤◌, List, ℕ, slice_range};

    ghost Value = { List ℕ };

    ghost view = { λ a. slice_range a.bytes a.from a.to };

    ghost invariant = { λ a. (a.from ≤ a.to) × (a.to ≤ 4096) };
}

// Copies bytes to the front of a buffer in which they fit.
fn copy_front(bytes: &[u8], buf: &mut [u8])
    requires { length bytes.now ≤ length buf.old }
    ensures { take (length bytes.now) buf.new ≡ bytes.now }
{
    buf[..bytes.len()].copy_from_slice(bytes);
}

impl Ahead {
    pub(crate) fn new() -> Ahead
        ensures { result ≡ [] }
    {
        Ahead {
            bytes: [0; MOST],
            from: 0,
            to: 0,
        }
    }

    pub(crate) fn is_empty(&self) -> bool
        ensures { result ≡ (length self.now == 0) }
    {
        self.from == self.to
    }

    /// Reads as many as came, where none are left.
    pub(crate) fn fill<L: Link>(&mut self, link: &mut L) -> Got
        requires none { self.old ≡ [] }
        ensures reads { Reads (L.view link.old) (L.view link.new) result self.new }
    {
        match link.read(&mut self.bytes) {
            Got::Took(count) => {
                self.from = 0;
                self.to = count;
                Got::Took(count)
            }
            Got::NotYet => Got::NotYet,
            Got::End => Got::End,
            Got::Failed => Got::Failed,
        }
    }

    /// Gives the first of them, as many as fit.
    pub(crate) fn give(&mut self, buf: &mut [u8]) -> usize
        requires some { 0 < length self.old }
        requires room { 0 < length buf.old }
        ensures given { self.old ≡ take result buf.new ++ self.new }
        ensures some { 1 ≤ result }
        ensures few { result ≤ length buf.new }
    {
        let count = buf.len().min(self.to - self.from);
        let end = self.from + count;
        copy_front(&self.bytes[self.from..end], buf);
        self.from = end;
        count
    }
}
