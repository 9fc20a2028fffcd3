//! What the bytes that come say.
ghost use Rattle.std.specs.Prelude.{◌≡◌, [], IfOk, IsTrue, List, Some, ◌↔◌, ℕ};
ghost use Rattle.q_smtpd.specs.Hearings.{Hears, Holds, HoldsCommands, HoldsContents};
ghost use Rattle.q_smtpd.specs.Intakes.{comes, content_ends, line_comes, start};
ghost use Rattle.q_smtpd.specs.Keeping.{HoldsBytes, HoldsLine};
ghost use Rattle.q_smtpd.specs.Places.{Course as CourseValue, Envelope as EnvelopeValue, Place};

use crate::answer::Answer;
use crate::content::Content;
use crate::course::{Course, Next};
use crate::line::Line;
use q_model::{Address, Addresses, Bytes, NoMemory};
use std::alloc::Global;

/// What the next byte belongs to.
#[derive(Clone, Copy, Debug, PartialEq, Eq)]
pub(crate) enum Stage {
    Commands,
    Contents,
    /// Nothing: the client has taken leave.
    Left,
}

/// A message that came whole.
#[derive(Drop)]
pub(crate) struct Mail {
    pub(crate) sender: Option<Address>,
    pub(crate) to: Addresses,
    pub(crate) content: Bytes,
}

/// What a byte brings.
#[derive(Drop)]
pub(crate) enum Heard {
    /// No reply is due.
    Nothing,
    Answer(Answer),
    /// A message came whole, and is to be taken.
    Mail(Mail),
}

/// What came so far.
#[derive(Drop)]
pub(crate) struct Hearing {
    pub(crate) course: Course,
    pub(crate) stage: Stage,
    pub(crate) line: Line,
    pub(crate) content: Content,
}

impl Hearing {
    pub(crate) fn new(alloc: Global) -> Hearing
        ensures { Holds start result }
    {
        Hearing {
            course: Course::new(),
            stage: Stage::Commands,
            line: Line::new(),
            content: Content::new(alloc),
        }
    }

    pub(crate) fn has_left(&self) -> bool
        ensures { IsTrue result ↔ (self.now.stage ≡ Stage.Left) }
    {
        self.stage == Stage::Left
    }

    /// Takes the next byte.
    pub(crate) fn hear(&mut self, alloc: Global, byte: u8) -> Result<Heard, NoMemory>
        ensures { IfOk result (λ heard. (p : Place) → Holds p self.old
            → Hears (comes p byte) heard self.new) }
    {
        match self.stage {
            Stage::Commands if byte == b'\n' => Ok(Heard::Answer(self.end_line(alloc)?)),
            Stage::Commands => {
                self.line.add(byte);
                Ok(Heard::Nothing)
            }
            Stage::Contents if self.content.take(byte)? => Ok(self.end_content()),
            Stage::Contents => Ok(Heard::Nothing),
            Stage::Left => Ok(Heard::Nothing),
        }
    }

    // A command line is whole.
    fn end_line(&mut self, alloc: Global) -> Result<Answer, NoMemory>
        ensures { IfOk result (λ answer. (c : CourseValue) (line : List ℕ)
            → HoldsCommands c line self.old
            → Hears (line_comes c line) (Heard.Answer answer) self.new) }
    {
        let next = match self.line.text() {
            Some(line) => self.course.obey(alloc, line)?,
            None => Next::Answer(Answer::TooLong),
        };
        self.line.clear();
        match next {
            Next::Answer(answer) => Ok(answer),
            Next::Content => {
                self.stage = Stage::Contents;
                Ok(Answer::Go)
            }
            Next::Leave => {
                self.stage = Stage::Left;
                Ok(Answer::Bye)
            }
        }
    }

    // A content is whole.
    fn end_content(&mut self) -> Heard
        ensures { (e : EnvelopeValue) (content : List ℕ) → self.old.course.envelope ≡ Some e
            → HoldsLine [] self.old.line
            → HoldsBytes content self.old.content.bytes self.old.content.is_big
            → Hears (content_ends e content) result self.new }
    {
        self.stage = Stage::Commands;
        let envelope = self.course.end();
        match (envelope, self.content.end()) {
            (Some(envelope), Some(content)) => Heard::Mail(Mail {
                sender: envelope.sender,
                to: envelope.to,
                content,
            }),
            _ => Heard::Answer(Answer::TooBig),
        }
    }
}
