//! What a server answers.
ghost use Rattle.std.specs.Prelude.{◌≡◌};
ghost use Rattle.q_serving.specs.Answered.{asks_for_content, is_answered};

use std::alloc::Global;
use std::io::{BufRead, ErrorKind, Write};
use std::time::{Clock, Duration};
use std::{io, thread};

/// The line that ends the content of a message.
const LAST_LINE: &[u8] = b".\r\n";

/// What a server says that takes a message for one recipient: a greeting, and an answer to each
/// command and to the content (RFC 5321, section 4.3.2).
pub const ACCEPTANCE: [&str; 6] = [
    "220 ready",
    "250 here",
    "250 ok",
    "250 ok",
    "354 go on",
    "250 taken",
];

/// What a server says on a connection, and how long it takes to answer a line.
#[derive(Clone, Copy, Debug)]
pub struct Answers<'a> {
    pub replies: &'a [String],
    pub delay: Duration,
}

// Whether content comes behind a reply.
fn asks_for_content(reply: &str) -> bool
    ensures { result ≡ asks_for_content reply.now }
{
    reply.as_bytes().starts_with(b"354")
}

// Whether a line is answered: any command is, and of content the last line.
fn is_answered(line: &[u8], in_content: bool) -> bool
    ensures { result ≡ is_answered line.now in_content }
{
    !in_content || line == LAST_LINE
}

// Reads lines through one that is answered.
fn await_line<R: BufRead>(alloc: Global, lines: &mut R, in_content: bool) -> io::Result<()> {
    let mut line = Vec::new(alloc);
    for _ in 0..u64::MAX {
        line.clear();
        if lines.read_until(b'\n', &mut line)? == 0 {
            break;
        }
        if is_answered(&line, in_content) {
            return Ok(());
        }
    }
    Err(io::Error::from(ErrorKind::UnexpectedEof))
}

// Sends a reply at once, so that no part of it waits for word of another.
fn send<W: Write>(alloc: Global, stream: &mut W, reply: &str) -> io::Result<()> {
    let line = format!(in alloc; "{reply}\r\n")?;
    stream.write_all(line.as_bytes())
}

/// Reads until the other side closes.
pub fn await_end<R: BufRead>(lines: &mut R) -> io::Result<()> {
    for _ in 0..u64::MAX {
        if lines.skip_until(b'\n')? == 0 {
            break;
        }
    }
    Ok(())
}

/// Sends the first reply at once, and each further one behind a line that is answered. What comes
/// behind the last reply isn't read. Where the other side closes before it, it is an `UnexpectedEof`.
pub fn answer<C: Clock, R: BufRead, W: Write>(
    alloc: Global,
    clock: &C,
    lines: &mut R,
    stream: &mut W,
    answers: Answers<'_>,
) -> io::Result<()> {
    let mut in_content = false;
    for (place, reply) in answers.replies.iter().enumerate() {
        if place > 0 {
            await_line(alloc, lines, in_content)?;
            thread::sleep(clock, answers.delay);
        }
        send(alloc, stream, reply.as_str())?;
        in_content = asks_for_content(reply.as_str());
    }
    Ok(())
}
