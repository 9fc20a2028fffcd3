//! What the lines below a step stand for.
//!
//! Behind each line comes a line end, unless a backslash ends it. `\n`, `\r`, `\t`, `\0` and `\\` are
//! bytes, and so is `\x` with two hexadecimal digits. `\(N*TEXT)` is a text so often, and `\[A..B:TEXT]`
//! is one copy of it for each number from A on and below B, with that number in place of each `#`; the
//! first of these may stand in the second, or the other way round.
use crate::flaw::Flaw;
use std::alloc::Global;
use std::fmt::Write;

const LETTERS: [(char, u8); 5] = [
    ('n', b'\n'),
    ('r', b'\r'),
    ('t', b'\t'),
    ('0', 0),
    ('\\', b'\\'),
];

fn number_in(text: &str) -> Result<u32, Flaw> {
    match text.parse::<u32>() {
        Ok(number) => Ok(number),
        Err(_) => Err(Flaw::NoStep("no number of copies")),
    }
}

/// The parts of a text before a mark, up to the next one, and behind that.
fn parts_at<'a>(text: &'a str, begin: &str, end: char) -> Option<(&'a str, &'a str, &'a str)> {
    let (before, rest) = text.split_once(begin)?;
    let (inner, behind) = rest.split_once(end)?;
    Some((before, inner, behind))
}

fn add_copies(text: &mut String, inner: &str) -> Result<(), Flaw> {
    let Some((count, copied)) = inner.split_once('*') else {
        return Err(Flaw::NoStep("no * in copies"));
    };
    for _ in 0..number_in(count)? {
        text.push_str(copied)?;
    }
    Ok(())
}

/// A text with its copies written out.
fn with_copies(alloc: Global, line: &str) -> Result<String, Flaw> {
    let mut text = String::new(alloc);
    let mut rest = line;
    for _ in 0..line.len() {
        let Some((before, inner, behind)) = parts_at(rest, "\\(", ')') else {
            break;
        };
        text.push_str(before)?;
        add_copies(&mut text, inner)?;
        rest = behind;
    }
    text.push_str(rest)?;
    Ok(text)
}

fn add_numbered(text: &mut String, copied: &str, number: u32) -> Result<(), Flaw> {
    for (i, part) in copied.split('#').enumerate() {
        if i > 0 {
            write!(text, "{number}")?;
        }
        text.push_str(part)?;
    }
    Ok(())
}

fn add_counted(text: &mut String, inner: &str) -> Result<(), Flaw> {
    let Some((range, copied)) = inner.split_once(':') else {
        return Err(Flaw::NoStep("no : in numbered copies"));
    };
    let Some((from, to)) = range.split_once("..") else {
        return Err(Flaw::NoStep("no range of numbered copies"));
    };
    for number in number_in(from)?..number_in(to)? {
        add_numbered(text, copied, number)?;
    }
    Ok(())
}

/// A text with its numbered copies written out.
fn with_counted(alloc: Global, line: &str) -> Result<String, Flaw> {
    let mut text = String::new(alloc);
    let mut rest = line;
    for _ in 0..line.len() {
        let Some((before, inner, behind)) = parts_at(rest, "\\[", ']') else {
            break;
        };
        text.push_str(before)?;
        add_counted(&mut text, inner)?;
        rest = behind;
    }
    text.push_str(rest)?;
    Ok(text)
}

/// The byte of a hexadecimal number of two digits, and what stands behind it.
fn hex_byte(text: &str) -> Option<(u8, &str)> {
    let (digits, rest) = text.split_at_checked(2)?;
    Some((u8::from_str_radix(digits, 16).ok()?, rest))
}

/// The byte for which a text begins that stands behind a backslash, and what stands behind it.
fn byte_at(text: &str) -> Option<(u8, &str)> {
    if let Some(digits) = text.strip_prefix('x') {
        return hex_byte(digits);
    }
    for (letter, byte) in LETTERS {
        if let Some(rest) = text.strip_prefix(letter) {
            return Some((byte, rest));
        }
    }
    None
}

/// Adds the bytes of a line. Whether a line end comes behind them.
fn add_bytes(bytes: &mut Vec<u8>, line: &str) -> Result<bool, Flaw> {
    let mut rest = line;
    for _ in 0..line.len() {
        let Some((before, behind)) = rest.split_once('\\') else {
            break;
        };
        bytes.extend_from_slice(before.as_bytes())?;
        if behind.is_empty() {
            return Ok(false);
        }
        let Some((byte, behind)) = byte_at(behind) else {
            return Err(Flaw::NoStep("no such escape"));
        };
        bytes.push(byte)?;
        rest = behind;
    }
    bytes.extend_from_slice(rest.as_bytes())?;
    Ok(true)
}

/// The bytes of lines, each ended so.
pub(crate) fn bytes_of(alloc: Global, lines: &[&str], end: &[u8]) -> Result<Vec<u8>, Flaw> {
    let mut bytes = Vec::new(alloc);
    for line in lines {
        let copied = with_copies(alloc, line)?;
        let counted = with_counted(alloc, copied.as_str())?;
        if add_bytes(&mut bytes, counted.as_str())? {
            bytes.extend_from_slice(end)?;
        }
    }
    Ok(bytes)
}
