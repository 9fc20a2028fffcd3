//! What one byte of a content, or a run of bytes within a line, adds to a buffer.
ghost use Rattle.std.specs.Prelude.{◌≡◌, ◌+◌, ◌*◌, ◌<◌, ◌≤◌, ◌++◌, IfSome, length, position, take};
ghost use Rattle.q_content.specs.Encoding.{behind_byte, behind_bytes, held_back, sent_byte, sent_bytes};
ghost use Rattle.q_content.specs.Runs.{ends_run, IsPlain};

use crate::ContentLine;

/// What was sent of a piece.
#[derive(Clone, Copy)]
pub(crate) struct Sent {
    /// The line behind it.
    pub(crate) line: ContentLine,
    /// How many bytes of the piece it took.
    pub(crate) taken: usize,
    /// How many bytes stand at the buffer's front.
    pub(crate) count: usize,
}

/// Sends the first bytes of what is left of a piece: a run within a line, or one byte.
pub(crate) fn send_some(line: ContentLine, rest: &[u8], out: &mut [u8], count: usize) -> Sent
    requires some { 0 < length rest.now }
    requires room { count + 2 * length rest.now + 1 ≤ length out.old }
    ensures moves { 0 < result.taken }
    ensures within { result.taken ≤ length rest.now }
    ensures line { result.line ≡ behind_bytes line (take result.taken rest.now) }
    ensures count { result.count ≡ count + length (sent_bytes line (take result.taken rest.now)) }
    ensures bytes { take result.count out.new
        ≡ take count out.old ++ sent_bytes line (take result.taken rest.now) }
    ensures length { length out.new ≡ length out.old }
{
    let run = run_length(line, rest);
    if run > 0 {
        return Sent {
            line,
            taken: run,
            count: put(out, count, &rest[..run]),
        };
    }
    let byte = rest[0];
    Sent {
        line: line_behind(byte),
        taken: 1,
        count: send_byte(line, byte, out, count),
    }
}

/// Puts bytes behind those at the buffer's front, and answers how many stand there then.
pub(crate) fn put(out: &mut [u8], count: usize, bytes: &[u8]) -> usize
    requires room { count + length bytes.now ≤ length out.old }
    ensures count { result ≡ count + length bytes.now }
    ensures bytes { take result out.new ≡ take count out.old ++ bytes.now }
    ensures length { length out.new ≡ length out.old }
{
    let end = count + bytes.len();
    out[count..end].copy_from_slice(bytes);
    end
}

/// The CR that a line holds back.
pub(crate) fn held_back(line: ContentLine) -> &'static [u8]
    ensures { result.now ≡ held_back line }
{
    if line.held { b"\r" } else { b"" }
}

// How many bytes are sent as they are, up to the next CR or LF. Only a line that has begun and
// holds nothing back sends any so.
fn run_length(line: ContentLine, rest: &[u8]) -> usize
    ensures within { result ≤ length rest.now }
    ensures plain { IsPlain line (take result rest.now) }
{
    if line.held || !line.begun {
        return 0;
    }
    place_of_end(rest).unwrap_or(rest.len())
}

// The place of the first CR or LF.
fn place_of_end(bytes: &[u8]) -> Option<usize>
    ensures exact { result ≡ position ends_run bytes.now }
    ensures within { IfSome result (λ at. at < length bytes.now) }
{
    bytes
        .iter()
        .position(|byte| *byte == b'\n' || *byte == b'\r')
}

fn line_behind(byte: u8) -> ContentLine
    ensures { (l : ContentLine) → result ≡ behind_byte l byte }
{
    ContentLine {
        begun: byte != b'\n',
        held: byte == b'\r',
    }
}

fn send_byte(line: ContentLine, byte: u8, out: &mut [u8], count: usize) -> usize
    requires room { count + 3 ≤ length out.old }
    ensures count { result ≡ count + length (sent_byte line byte) }
    ensures bytes { take result out.new ≡ take count out.old ++ sent_byte line byte }
    ensures length { length out.new ≡ length out.old }
{
    if byte == b'\n' {
        return put(out, count, b"\r\n");
    }
    let held = put(out, count, held_back(line));
    if byte == b'\r' {
        return held;
    }
    if byte == b'.' && !line.begun {
        return put(out, held, b"..");
    }
    put(out, held, &[byte])
}
