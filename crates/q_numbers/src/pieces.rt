//! The pieces of a text between the bytes that divide it.
ghost use Rattle.std.specs.Prelude.{◌≡◌, ◌<◌, ◌∷◌, IfSome, length, option_map, position};
ghost use Rattle.q_numbers.specs.Pieces.{cut, is_byte, words_behind, words_in};

fn place_of(text: &[u8], byte: u8) -> Option<usize>
    ensures exact { result ≡ position (is_byte byte) text.now }
    ensures within { IfSome result (λ at. at < length text.now) }
{
    text.iter().position(|b| *b == byte)
}

/// What stands before the first such byte, and behind it; `None` where there is none.
#[tactic(auto, unfolding(crate::specs::Pieces::cut))]
pub fn cut(text: &[u8], byte: u8) -> Option<(&[u8], &[u8])>
    ensures exact { option_map (λ c. (c.0.now, c.1.now)) result ≡ cut byte text.now }
    ensures shorter { IfSome result (λ c. length c.1.now < length text.now) }
{
    let at = place_of(text, byte)?;
    Some((&text[..at], &text[at + 1..]))
}

/// The first word of a text, and what stands behind its space; `None` where it is the last.
pub fn first_word(text: &[u8]) -> (&[u8], Option<&[u8]>)
    ensures words { words_in text.now
        ≡ result.0.now ∷ words_behind (option_map (λ more. more.now) result.1) }
    ensures shorter { IfSome result.1 (λ more. length more.now < length text.now) }
{
    match cut(text, b' ') {
        Some((word, more)) => (word, Some(more)),
        None => (text, None),
    }
}
