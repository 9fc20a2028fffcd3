//! The end of a line, and its spaces.
ghost use Rattle.std.specs.Prelude.{◌≡◌, ◌≢◌, IfNone, IfSome, List, ℕ};
ghost use Rattle.std.specs.List.{count_by};
ghost use Rattle.q_model.specs.TextParts.{text_line};
ghost use Rattle.q_numbers.specs.Pieces.{is_space};

pub(crate) fn spaces(text: &[u8]) -> usize
    ensures { result ≡ count_by is_space text.now }
{
    text.iter().filter(|b| **b == b' ').count()
}

/// The text of a line without its end.
pub(crate) fn without_end(line: &[u8]) -> Option<&[u8]>
    ensures some { IfSome result (λ text. text_line text.now ≡ line.now) }
    ensures none { IfNone result ((text : List ℕ) → text_line text ≢ line.now) }
{
    match line {
        [text @ .., b'\n'] => Some(text),
        _ => None,
    }
}
