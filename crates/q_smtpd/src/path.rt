//! Addresses in angle brackets.
ghost use Rattle.std.specs.Prelude.{◌≡◌, codes, map};
ghost use Rattle.std.specs.Option.{option_map};
ghost use Rattle.std.specs.Char.{to_ascii_lowercase};
ghost use Rattle.q_smtpd.specs.Paths.{behind_spaces, bracketed, from_path, path_behind, to_path};

use crate::verb::reads_as;
use q_numbers::cut;

#[tactic(auto, unfolding(crate::specs::Paths::behind_spaces))]
fn behind_spaces(text: &[u8]) -> &[u8]
    ensures { result.now ≡ behind_spaces text.now }
{
    let mut rest = text;
    while let [b, others @ ..] = rest {
        if *b != b' ' {
            break;
        }
        rest = others;
    }
    rest
}

fn bracketed(text: &[u8]) -> Option<(&[u8], &[u8])>
    ensures { option_map (λ c. (c.0.now, c.1.now)) result ≡ bracketed text.now }
{
    match text {
        [b'<', path @ ..] => cut(path, b'>'),
        _ => None,
    }
}

/// What stands in brackets behind this word, which is in lower case, and what stands behind them.
fn path_behind<'a>(word: &[u8], text: &'a [u8]) -> Option<(&'a [u8], &'a [u8])>
    requires { map to_ascii_lowercase word.now ≡ word.now }
    ensures { option_map (λ c. (c.0.now, c.1.now)) result ≡ path_behind word.now text.now }
{
    if text.len() < word.len() {
        return None;
    }
    let (front, rest) = text.split_at(word.len());
    if !reads_as(front, word) {
        return None;
    }
    bracketed(behind_spaces(rest))
}

/// `FROM:<S>`, and what stands behind it.
pub(crate) fn from_path(text: &[u8]) -> Option<(&[u8], &[u8])>
    ensures { option_map (λ c. (c.0.now, c.1.now)) result ≡ from_path text.now }
{
    path_behind(b"from:", text)
}

/// `TO:<A>`, and what stands behind it.
pub(crate) fn to_path(text: &[u8]) -> Option<(&[u8], &[u8])>
    ensures { option_map (λ c. (c.0.now, c.1.now)) result ≡ to_path text.now }
{
    path_behind(b"to:", text)
}
