//! The lines of a text.
ghost use Rattle.std.specs.Prelude.{◌<◌, length};
ghost use Rattle.q_text.specs.Lines.{IsFirstLine};

use q_numbers::cut;

/// The first line without its end, and what follows that. A last line may lack its end.
pub fn first_line(text: &[u8]) -> (&[u8], &[u8])
    ensures line { IsFirstLine text.now result.0.now result.1.now }
    ensures shorter { 0 < length text.now → length result.1.now < length text.now }
{
    match cut(text, b'\n') {
        Some(halves) => halves,
        None => (text, &text[text.len()..]),
    }
}
