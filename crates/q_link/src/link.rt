//! What a connection is: reads and writes that answer at once, whether something came or went or
//! not. It is an error to read into an empty buffer, and to write no bytes.
ghost use Rattle.std.specs.Prelude.{◌<◌, length};
ghost use Rattle.q_link.specs.Views.{View};
ghost use Rattle.q_link.specs.Reads.{Reads, Writes};

/// What came of a read.
#[derive(Clone, Copy, Debug, PartialEq, Eq)]
pub enum Got {
    /// So many bytes, at least one, stand at the front of the buffer.
    Took(usize),
    /// Nothing came yet.
    NotYet,
    /// The other side sends no more.
    End,
    /// The link failed, and gave nothing.
    Failed,
}

/// What came of a write.
#[derive(Clone, Copy, Debug, PartialEq, Eq)]
pub enum Put {
    /// The first so many bytes, at least one, were sent.
    Gave(usize),
    /// Nothing can be sent yet.
    NotYet,
    /// The link failed, and nothing was sent.
    Failed,
}

/// A connection. Its count of faults never falls, and stands at 2^64 - 1 where it would pass that.
pub trait Link: Drop {
    /// How often it failed, whether it waits, whether it ended, and, where it tells, what came and
    /// went over it.
    ghost view: { Self → View };

    /// Takes bytes that came, into the front of a buffer that isn't empty.
    fn read(&mut self, buf: &mut [u8]) -> Got
        requires some { 0 < length buf.old }
        ensures reads { Reads (view self.old) (view self.new) result buf.new };

    /// Sends the front of some bytes, of which there is at least one.
    fn write(&mut self, bytes: &[u8]) -> Put
        requires some { 0 < length bytes.now }
        ensures writes { Writes (view self.old) (view self.new) result bytes.now };
}
