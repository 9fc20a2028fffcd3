//! A reader of std as a stream.
ghost use Rattle.std.specs.Prelude.{◌≡◌, ◌<◌, None, length, IfOk, OnErr};
ghost use Rattle.std.specs.Io.{ReadsAtMost};
ghost use Rattle.std.specs.Io.KnownBytes.{Keeps, ReadConsumes};
ghost use Rattle.q_stream.specs.Takes.{TakesFront, TakesKnown, HasCause};

use crate::{Source, Take};
use std::io;
use std::io::{ErrorKind, Read};

/// A reader of std. It tells nothing of its bytes. Each error of the reader is a fault, but for
/// an interrupted read (EINTR), which is tried again.
#[derive(Drop)]
pub struct StdSource<R: Read> {
    reader: R,
    faults: u64,
}

impl<R: Read> StdSource<R> {
    /// A source over a reader, which has not failed yet.
    pub fn new(reader: R) -> StdSource<R>
        ensures reader { result.reader ≡ reader }
        ensures faults { result.faults ≡ 0 }
    {
        StdSource { reader, faults: 0 }
    }
}

// One read, tried again where a signal interrupts it.
fn read_on<R: Read>(reader: &mut R, buf: &mut [u8]) -> io::Result<usize>
    ensures bound { ReadsAtMost result buf.new }
    ensures bytes { ReadConsumes (R.remaining reader.old) (R.remaining reader.new) result buf.new }
{
    for _ in 0..u64::MAX {
        match reader.read(buf) {
            Err(e) if e.kind() == ErrorKind::Interrupted => {}
            answer => return answer,
        }
    }
    Err(io::Error::from(ErrorKind::Interrupted))
}

impl<R: Read> Source for StdSource<R> {
    ghost use Rattle.std.specs.Prelude.{None};

    ghost left = { λ _. None };

    ghost faults = { λ s. s.faults };

    fn take(&mut self, buf: &mut [u8]) -> Take
        requires { 0 < length buf.old }
        ensures bytes { TakesFront None None result buf.new }
        ensures cause { HasCause self.old.faults self.new.faults result }
        // Where the reader's bytes are known, as those of a slice.
        ensures known { TakesKnown (R.remaining self.old.reader) (R.remaining self.new.reader)
            result buf.new }
    {
        match read_on(&mut self.reader, buf) {
            Ok(0) => Take::End,
            Ok(count) => Take::Took(count),
            Err(_) => {
                self.faults = self.faults.saturating_add(1);
                Take::Failed
            }
        }
    }
}
