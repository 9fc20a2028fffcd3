//! Pieces of a content as they are sent.
ghost use Rattle.std.specs.Prelude.{◌≡◌, ◌≤◌, ◌+◌, ◌*◌, length, take};
ghost use Rattle.q_content.specs.Encoding.{behind_bytes, line_end, line_start, sent_bytes, sent_end};

use crate::runs::{held_back, put, send_some};

/// How far a line has come.
#[derive(Clone, Copy, Debug, PartialEq, Eq)]
pub struct ContentLine {
    /// A byte of it came.
    pub begun: bool,
    /// Its last byte is a CR, which is sent only if no LF follows.
    pub held: bool,
}

/// What was put into a buffer.
#[derive(Clone, Copy, Debug, PartialEq, Eq)]
pub struct Encoded {
    /// The line behind the piece.
    pub line: ContentLine,
    /// How many bytes stand at the buffer's front.
    pub count: usize,
}

impl ContentLine {
    /// The start of a line, as that of the content is.
    pub fn start() -> ContentLine
        ensures { result ≡ line_start }
    {
        ContentLine {
            begun: false,
            held: false,
        }
    }
}

/// Puts a piece of the content, as it is sent, at the front of a buffer.
pub fn encode(line: ContentLine, piece: &[u8], out: &mut [u8]) -> Encoded
    requires room { 2 * length piece.now + 2 ≤ length out.old }
    ensures line { result.line ≡ behind_bytes line piece.now }
    ensures count { result.count ≡ length (sent_bytes line piece.now) }
    ensures few { result.count ≤ 2 * length piece.now + 1 }
    ensures bytes { take result.count out.new ≡ sent_bytes line piece.now }
    ensures length { length out.new ≡ length out.old }
{
    let mut behind = line;
    let mut from = 0;
    let mut count = 0;
    while from < piece.len() {
        let sent = send_some(behind, &piece[from..], out, count);
        behind = sent.line;
        from += sent.taken;
        count = sent.count;
    }
    Encoded {
        line: behind,
        count,
    }
}

/// Puts the end of the content, as it is sent, at the front of a buffer, and answers its length.
pub fn encode_end(line: ContentLine, out: &mut [u8]) -> usize
    requires room { 6 ≤ length out.old }
    ensures count { result ≡ length (sent_end line) }
    ensures few { result ≤ 6 }
    ensures bytes { take result out.new ≡ sent_end line }
    ensures length { length out.new ≡ length out.old }
{
    let held = put(out, 0, held_back(line));
    let ended = put(out, held, line_end(line));
    put(out, ended, b".\r\n")
}

// What ends a line that has begun.
fn line_end(line: ContentLine) -> &'static [u8]
    ensures { result.now ≡ line_end line }
{
    if line.begun { b"\r\n" } else { b"" }
}
