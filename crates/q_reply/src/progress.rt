//! A reply that has begun.
ghost use Rattle.std.specs.Prelude.{◌≡◌, ◌≤◌, ◌+◌, ◌<◌, ◌-◌, ◌==◌, ◌||◌, nat_le, [], ◌∷◌};
ghost use Rattle.q_smtp.specs.Replies.{Part, comes};
ghost use Rattle.q_reply.specs.Progress.{behind, follows, is_digit_of, next_line, number_of, room_of, Shows, Took};

const LF: u8 = b'\n';

const CR: u8 = b'\r';

/// How many bytes a line may have, with its end (RFC 5321, section 4.5.3.1.5).
const LINE_LIMIT: u16 = 512;

/// How many lines a reply may have.
const LINES_LIMIT: u8 = 100;

/// A reply as far as it has come.
#[derive(Clone, Copy, Debug, PartialEq, Eq)]
pub(crate) struct Progress {
    // the digits of the first line; each later line repeats them
    pub(crate) code: [u8; 3],
    // the lines that are whole
    pub(crate) lines: u8,
    // the bytes of this line so far
    pub(crate) column: u16,
    // the byte behind this line's code, or 0
    pub(crate) mark: u8,
}

/// What came of one byte.
#[derive(Clone, Copy, Debug, PartialEq, Eq)]
pub(crate) enum Taken {
    On,
    Whole(u16),
    Bad,
    Long,
}

impl Progress {
    pub(crate) fn new() -> Progress
        ensures { result ≡ record { code = 0 ∷ 0 ∷ 0 ∷ []; lines = 0; column = 0; mark = 0 } }
    {
        Progress {
            code: [0; 3],
            lines: 0,
            column: 0,
            mark: 0,
        }
    }

    /// Whether the next byte is one too many.
    fn is_full(&self) -> bool
        ensures { result ≡ (nat_le 512 self.now.column || nat_le 100 self.now.lines) }
    {
        self.column >= LINE_LIMIT || self.lines >= LINES_LIMIT
    }

    fn is_digit_of_code(&self, byte: u8) -> bool
        requires { self.now.column < 3 }
        ensures { result ≡ is_digit_of self.now byte }
    {
        self.lines == 0 || byte == self.code[self.column as usize]
    }

    /// Whether a byte may come next.
    fn may_follow(&self, byte: u8) -> bool
        ensures { result ≡ follows self.now byte }
    {
        if byte == LF {
            return self.column >= 3;
        }
        match self.column {
            0 => (b'2'..=b'5').contains(&byte) && self.is_digit_of_code(byte),
            1 | 2 => byte.is_ascii_digit() && self.is_digit_of_code(byte),
            3 => byte == b'-' || byte == b' ' || byte == CR,
            _ => self.mark != CR,
        }
    }

    /// Whether this line says that another one follows.
    fn has_more(&self) -> bool
        ensures { result ≡ (self.now.mark == 45) }
    {
        self.mark == b'-'
    }

    fn add(&mut self, byte: u8)
        requires { self.old.column < 512 }
        ensures { self.new ≡ behind self.old byte }
    {
        if self.lines == 0 && self.column < 3 {
            self.code[self.column as usize] = byte;
        }
        if self.column == 3 {
            self.mark = byte;
        }
        self.column += 1;
    }

    fn begin_line(&mut self)
        requires { self.old.lines < 100 }
        ensures { self.new ≡ next_line self.old }
    {
        self.lines += 1;
        self.column = 0;
        self.mark = 0;
    }

    /// Takes the next byte, and begins anew behind a whole reply.
    pub(crate) fn take(&mut self, byte: u8) -> Taken
        ensures took { (p : Part) → Shows p self.old → Took (comes p byte) result self.new }
        ensures room { result ≡ Taken.On → 1 + room_of self.new ≤ room_of self.old }
    {
        if self.is_full() {
            return Taken::Long;
        }
        if !self.may_follow(byte) {
            return Taken::Bad;
        }
        if byte != LF {
            self.add(byte);
            return Taken::On;
        }
        if self.has_more() {
            self.begin_line();
            return Taken::On;
        }
        let code = self.number();
        *self = Progress::new();
        Taken::Whole(code)
    }

    fn number(&self) -> u16
        ensures { result ≡ number_of self.now.code }
    {
        let [hundreds, tens, ones] = self.code;
        100 * digit(hundreds) + 10 * digit(tens) + digit(ones)
    }
}

fn digit(byte: u8) -> u16
    ensures value { result ≡ byte - 48 }
    ensures few { result < 256 }
{
    byte.saturating_sub(b'0') as u16
}
