//! The words of a command line.
ghost use Rattle.std.specs.Prelude.{◌≡◌, bytes_eq, map};
ghost use Rattle.std.specs.Option.{option_map};
ghost use Rattle.std.specs.Char.{to_ascii_lowercase};
ghost use Rattle.q_smtpd.specs.Verbs.{argument_of, reads_as, verb_of, word_of};

use q_numbers::cut;

/// Which command a line has.
#[derive(Clone, Copy, Debug, PartialEq, Eq)]
pub(crate) enum Verb {
    /// EHLO or HELO.
    Hello,
    Mail,
    Rcpt,
    Data,
    Reset,
    Noop,
    Verify,
    Quit,
    /// None of these.
    Other,
}

/// Whether a text is this word, which is in lower case, with letters in either case.
pub(crate) fn reads_as(text: &[u8], word: &[u8]) -> bool
    requires { map to_ascii_lowercase word.now ≡ word.now }
    ensures { result ≡ reads_as word.now text.now }
{
    text.eq_ignore_ascii_case(word)
}

/// Which command a word names.
pub(crate) fn verb_of(word: &[u8]) -> Verb
    ensures { result ≡ verb_of word.now }
{
    if reads_as(word, b"ehlo") {
        Verb::Hello
    } else if reads_as(word, b"helo") {
        Verb::Hello
    } else if reads_as(word, b"mail") {
        Verb::Mail
    } else if reads_as(word, b"rcpt") {
        Verb::Rcpt
    } else if reads_as(word, b"data") {
        Verb::Data
    } else if reads_as(word, b"rset") {
        Verb::Reset
    } else if reads_as(word, b"noop") {
        Verb::Noop
    } else if reads_as(word, b"vrfy") {
        Verb::Verify
    } else if reads_as(word, b"quit") {
        Verb::Quit
    } else {
        Verb::Other
    }
}

/// A line's first word, and what stands behind its space.
pub(crate) fn words_of(line: &[u8]) -> (&[u8], Option<&[u8]>)
    ensures word { result.0.now ≡ word_of line.now }
    ensures argument { option_map (λ text. text.now) result.1 ≡ argument_of line.now }
{
    match cut(line, b' ') {
        Some((word, argument)) => (word, Some(argument)),
        None => (line, None),
    }
}
