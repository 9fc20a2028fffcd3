//! Lines of a source, which gives its bytes in pieces.
//!
//! `read_line` gives one line after another, and says of the last whether it has its end. A line has at
//! most 16,777,216 bytes, and a text 2^40. Behind a line that is too long or past the limit, and behind a
//! failure, it is an error to ask for another.
ghost use Rattle.std.specs.Prelude.{◌≡◌, ◌≤◌, ◌<◌, length, IfOk, [], ◌∷◌};
ghost use Rattle.q_stream.specs.Takes.{HasCause};
ghost use Rattle.q_lines.specs.LineReadings.{CountsFaults, FailsInLine, Fills, GivesNext, GivesNextLine, Spends};
ghost use Rattle.q_model.specs.FaultCounts.{Rose};

use q_stream::{Source, Take};
use std::alloc::Global;
use std::marker::Model;
use thiserror::Error;

/// How many bytes a text may have.
const MOST: u64 = 1 << 40;

/// How many bytes a line may have, without its LF.
const LONGEST: usize = 16_777_216;

/// How many bytes are asked of the source at once.
const PIECE: usize = 4096;

/// The next line of a text.
#[derive(Debug, Drop)]
pub enum NextLine {
    /// A line, without its LF.
    Line(Vec<u8>),
    /// The last line, which lacks its LF.
    Unended(Vec<u8>),
    /// The line has more bytes than a line may have.
    TooLong,
    /// The text has more bytes than it may have, and the line doesn't end within them.
    PastLimit,
    /// There is no line more.
    End,
}

/// Why there is no line.
#[derive(Clone, Copy, Debug, PartialEq, Eq, Error)]
pub enum LineError {
    /// The source failed. What was taken of the line is lost.
    #[error("input fault")]
    Source,
    #[error("no memory")]
    NoMemory,
}

enum Next {
    Byte(u8),
    End,
    Failed,
}

/// Cuts a text into lines: the bytes that were taken and not given yet, and how many more the
/// text may have.
#[derive(Drop)]
pub struct LineReader {
    buffer: [u8; PIECE],
    at: usize,
    end: usize,
    budget: u64,
}

impl Model for LineReader {
    ghost use Rattle.std.specs.Prelude.{take, drop, ◌≤◌};
    ghost use Rattle.q_lines.specs.States.{ReaderState};

    ghost Value = { ReaderState };

    ghost view = { λ r. record { buffered = drop r.at (take r.end r.buffer); budget = r.budget } };

    ghost invariant = { λ r. (r.at ≤ r.end) × (r.end ≤ 4096) };
}

impl LineReader {
    /// Before the first line.
    pub fn new() -> LineReader
        ensures buffered { result.buffered ≡ [] }
        ensures budget { result.budget ≡ 1099511627776 }
    {
        LineReader {
            buffer: [0; PIECE],
            at: 0,
            end: 0,
            budget: MOST,
        }
    }

    /// From now on the text may have no byte more, so no line is given.
    pub fn give_up(&mut self)
        ensures { self.new ≡ record self.old { budget = 0 } }
    {
        self.budget = 0;
    }

    /// Takes bytes from the source, where all that were taken before are given.
    fn fill<S: Source>(&mut self, source: &mut S) -> Take
        requires { self.old.buffered ≡ [] }
        ensures fills { Fills (S.left source.old) self.new (S.left source.new) result }
        ensures budget { self.new.budget ≡ self.old.budget }
        ensures cause { HasCause (S.faults source.old) (S.faults source.new) result }
    {
        let taken = source.take(&mut self.buffer);
        self.at = 0;
        self.end = match taken {
            Take::Took(count) => count,
            Take::End => 0,
            Take::Failed => 0,
        };
        taken
    }

    /// Gives the first byte of those that were taken.
    fn give(&mut self) -> u8
        requires { 0 < length self.old.buffered }
        ensures byte { self.old.buffered ≡ result ∷ self.new.buffered }
        ensures budget { self.new.budget ≡ self.old.budget }
    {
        let byte = self.buffer[self.at];
        self.at += 1;
        byte
    }

    fn next_byte<S: Source>(&mut self, source: &mut S) -> Next
        ensures next { GivesNext self.old (S.left source.old) self.new (S.left source.new) result }
        ensures budget { self.new.budget ≡ self.old.budget }
        ensures counts { CountsFaults (S.faults source.old) (S.faults source.new) result }
    {
        if self.at < self.end {
            return Next::Byte(self.give());
        }
        match self.fill(source) {
            Take::Took(_) => Next::Byte(self.give()),
            Take::End => Next::End,
            Take::Failed => Next::Failed,
        }
    }

    /// The next line of what is left.
    pub fn read_line<S: Source>(
        &mut self,
        alloc: Global,
        source: &mut S,
    ) -> Result<NextLine, LineError>
        ensures line { IfOk result (λ line.
            GivesNextLine self.old (S.left source.old) self.new (S.left source.new) line) }
        ensures progress { IfOk result (λ line. Spends self.old self.new line) }
        ensures budget { self.new.budget ≤ self.old.budget }
        ensures source { result ≡ Err LineError.Source
            → FailsInLine self.old (S.left source.old) (S.left source.new) }
        ensures cause { result ≡ Err LineError.Source
            → Rose (S.faults source.old) (S.faults source.new) }
        ensures later { S.faults source.old ≤ S.faults source.new }
        ensures faultless { IfOk result (λ _. S.faults source.new ≡ S.faults source.old) }
    {
        let mut line = Vec::new(alloc);
        loop {
            match self.next_byte(source) {
                Next::Byte(byte) => {
                    if self.budget == 0 {
                        return Ok(NextLine::PastLimit);
                    }
                    self.budget -= 1;
                    if byte == b'\n' {
                        return Ok(NextLine::Line(line));
                    }
                    if line.len() == LONGEST {
                        return Ok(NextLine::TooLong);
                    }
                    let Ok(()) = line.push(byte) else {
                        return Err(LineError::NoMemory);
                    };
                }
                Next::End => {
                    if line.is_empty() {
                        return Ok(NextLine::End);
                    }
                    return Ok(NextLine::Unended(line));
                }
                Next::Failed => return Err(LineError::Source),
            }
        }
    }
}
