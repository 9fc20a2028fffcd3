//! A content that has begun.
ghost use Rattle.std.specs.Prelude.{◌≡◌, ◌++◌, ◌∷◌, [], IfOk, List, OnOk, ℕ};
ghost use Rattle.q_smtpd.specs.Intakes.{comes};
ghost use Rattle.q_smtpd.specs.Keeping.{HoldsBytes, HoldsContent, TakesWithin, Took, no_content, whole_content};
ghost use Rattle.q_smtpd.specs.Places.{Envelope, contents};

use q_model::{Bytes, MOST_MAIL_BYTES, NoMemory};
use std::alloc::Global;
use std::marker::Model;
use std::mem;

const CR: u8 = b'\r';

const LF: u8 = b'\n';

/// What came of the line so far.
#[derive(Clone, Copy, Debug, PartialEq, Eq)]
pub(crate) enum Column {
    /// Nothing.
    Start,
    /// A dot alone, which isn't kept.
    Dot,
    /// A dot and a CR, of which neither is kept.
    DotReturn,
    /// Bytes, which are kept, and then a CR, which isn't.
    Return,
    /// Bytes, which are kept.
    Within,
}

/// The bytes of a content so far, as they are stored. Of one that is too big only that is kept.
#[derive(Drop)]
pub(crate) struct Content {
    alloc: Global,
    bytes: Vec<u8>,
    is_big: bool,
    column: Column,
}

impl Model for Content {
    ghost use Rattle.q_smtpd.specs.Keeping.{Kept};

    ghost Value = { Kept };

    ghost view = { λ c. record { bytes = c.bytes.items; is_big = c.is_big; column = c.column } };
}

impl Content {
    pub(crate) fn new(alloc: Global) -> Content
        ensures { result ≡ no_content }
    {
        Content {
            alloc,
            bytes: Vec::new(alloc),
            is_big: false,
            column: Column::Start,
        }
    }

    fn keep(&mut self, byte: u8) -> Result<(), NoMemory>
        ensures bytes { OnOk result ((stored : List ℕ)
            → HoldsBytes stored self.old.bytes self.old.is_big
            → HoldsBytes (stored ++ byte ∷ []) self.new.bytes self.new.is_big) }
        ensures column { OnOk result (self.new.column ≡ self.old.column) }
    {
        if self.is_big {
            return Ok(());
        }
        if self.bytes.len() >= MOST_MAIL_BYTES as usize {
            self.is_big = true;
            self.bytes = Vec::new(self.alloc);
            return Ok(());
        }
        self.bytes.push(byte)?;
        Ok(())
    }

    fn within(&mut self, byte: u8) -> Result<(), NoMemory>
        ensures { OnOk result (TakesWithin byte self.old self.new) }
    {
        if byte == CR {
            self.column = Column::Return;
            return Ok(());
        }
        self.column = Column::Within;
        self.keep(byte)
    }

    /// Takes the next byte. The answer is whether it ends the content.
    pub(crate) fn take(&mut self, byte: u8) -> Result<bool, NoMemory>
        ensures { IfOk result (λ whole. (e : Envelope) (text line : List ℕ)
            → HoldsContent text line self.old
            → Took e (comes (contents e text line) byte) whole self.new) }
    {
        match self.column {
            Column::Start if byte == b'.' => self.column = Column::Dot,
            Column::Start => self.within(byte)?,
            Column::Dot if byte == CR => self.column = Column::DotReturn,
            Column::Dot => self.within(byte)?,
            Column::DotReturn if byte == LF => return Ok(true),
            Column::DotReturn => {
                self.keep(CR)?;
                self.within(byte)?;
            }
            Column::Return if byte == LF => {
                self.column = Column::Start;
                self.keep(LF)?;
            }
            Column::Return => {
                self.keep(CR)?;
                self.within(byte)?;
            }
            Column::Within => self.within(byte)?,
        }
        Ok(false)
    }

    /// The whole content, unless it is too big. Another one may begin then.
    pub(crate) fn end(&mut self) -> Option<Bytes>
        ensures content { (stored : List ℕ) → HoldsBytes stored self.old.bytes self.old.is_big
            → result ≡ whole_content stored }
        ensures new { self.new ≡ no_content }
    {
        let bytes = mem::replace(&mut self.bytes, Vec::new(self.alloc));
        let is_big = self.is_big;
        self.is_big = false;
        self.column = Column::Start;
        if is_big {
            return None;
        }
        Some(Bytes::from_vec(bytes))
    }
}
