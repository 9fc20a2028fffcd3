//! A command line that has begun.
ghost use Rattle.std.specs.Prelude.{◌≡◌, ◌++◌, ◌∷◌, [], List, ℕ};
ghost use Rattle.std.specs.Option.{option_map};
ghost use Rattle.q_smtpd.specs.LineEnds.{without_cr};
ghost use Rattle.q_smtpd.specs.Keeping.{HoldsLine, no_line, text_of_line};

use std::marker::Model;

/// How many bytes a line may have before its LF (RFC 5321, section 4.5.3.1.4).
const ROOM: usize = 511;

/// The bytes of a line so far. Of one that is too long only that is kept.
#[derive(Drop)]
pub(crate) struct Line {
    bytes: [u8; ROOM],
    count: usize,
    is_long: bool,
}

impl Model for Line {
    ghost use Rattle.std.specs.Prelude.{◌≤◌, take};
    ghost use Rattle.q_smtpd.specs.Keeping.{Lined};

    ghost Value = { Lined };

    ghost view = { λ l. record { bytes = take l.count l.bytes; is_long = l.is_long } };

    ghost invariant = { λ l. l.count ≤ 511 };
}

impl Line {
    pub(crate) fn new() -> Line
        ensures { result ≡ no_line }
    {
        Line {
            bytes: [0; ROOM],
            count: 0,
            is_long: false,
        }
    }

    /// Begins the next line.
    pub(crate) fn clear(&mut self)
        ensures { self.new ≡ no_line }
    {
        self.count = 0;
        self.is_long = false;
    }

    pub(crate) fn add(&mut self, byte: u8)
        ensures { (line : List ℕ) → HoldsLine line self.old
            → HoldsLine (line ++ byte ∷ []) self.new }
    {
        if self.count >= ROOM {
            self.is_long = true;
            return;
        }
        self.bytes[self.count] = byte;
        self.count += 1;
    }

    /// The bytes, without a CR at the end; `None` where it is too long.
    pub(crate) fn text(&self) -> Option<&[u8]>
        ensures { (line : List ℕ) → HoldsLine line self.now
            → option_map (λ text. text.now) result ≡ text_of_line line }
    {
        if self.is_long {
            return None;
        }
        Some(without_cr(&self.bytes[..self.count]))
    }
}

fn without_cr(line: &[u8]) -> &[u8]
    ensures { result.now ≡ without_cr line.now }
{
    let count = line.len();
    if count == 0 {
        return line;
    }
    if line[count - 1] == b'\r' {
        &line[..count - 1]
    } else {
        line
    }
}
