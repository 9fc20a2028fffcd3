//! What a stream of bytes is: each call takes the next bytes, meets the end, or fails. What a call took
//! is gone from the stream; an end and a fault take nothing. After a fault the stream may be asked
//! again, and goes on where it stood. It is an error to take into an empty buffer.
ghost use Rattle.std.specs.Prelude.{◌<◌, List, ℕ, Option, length};
ghost use Rattle.q_stream.specs.Takes.{TakesFront, HasCause};

/// What came of taking bytes from a stream.
#[derive(Clone, Copy, Debug, PartialEq, Eq)]
pub enum Take {
    /// So many bytes, at least one, stand at the front of the buffer.
    Took(usize),
    /// Nothing is left.
    End,
    /// The stream failed, and gave nothing. It may be asked again.
    Failed,
}

/// A stream of bytes.
pub trait Source {
    /// The bytes that are left, where the source tells them; a reader of the system can't.
    ghost left: { Self → Option (List ℕ) };

    /// How often it has failed. The count rises at a call that fails, at no other, and may stop at
    /// 2^64 - 1.
    ghost faults: { Self → ℕ };

    /// Takes the next bytes, at least one where any is left, into the front of a buffer that
    /// isn't empty. What stands behind them in the buffer is of no account.
    fn take(&mut self, buf: &mut [u8]) -> Take
        requires { 0 < length buf.old }
        ensures bytes { TakesFront (left self.old) (left self.new) result buf.new }
        ensures cause { HasCause (faults self.old) (faults self.new) result };
}
