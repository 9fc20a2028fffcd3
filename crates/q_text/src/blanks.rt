//! Blanks in a line, lines that are passed over, and text.
ghost use Rattle.std.specs.Prelude.{◌≡◌};
ghost use Rattle.std.specs.List.{list_all};
ghost use Rattle.q_text.specs.Blanks.{is_blank, is_passed_over, is_text_byte, trimmed, trimmed_end, trimmed_start};

/// Whether a byte is a space or a tab.
pub fn is_blank(byte: u8) -> bool
    ensures { result ≡ is_blank byte }
{
    byte == b' ' || byte == b'\t'
}

fn are_blanks(line: &[u8]) -> bool
    ensures { result ≡ list_all is_blank line.now }
{
    line.iter().all(|b| is_blank(*b))
}

/// Whether a line says nothing: it is blank or a comment.
pub fn is_passed_over(line: &[u8]) -> bool
    ensures { result ≡ is_passed_over line.now }
{
    are_blanks(line) || line[0] == b'#'
}

/// Whether each byte is printable ASCII or a tab.
pub fn is_text(line: &[u8]) -> bool
    ensures { result ≡ list_all is_text_byte line.now }
{
    line.iter().all(|b| matches!(*b, b' '..=b'~' | b'\t'))
}

/// The text without the blanks in front.
pub fn trim_start(text: &[u8]) -> &[u8]
    ensures { result.now ≡ trimmed_start text.now }
{
    let mut rest = text;
    while let [b, others @ ..] = rest {
        if !is_blank(*b) {
            break;
        }
        rest = others;
    }
    rest
}

fn trim_end(text: &[u8]) -> &[u8]
    ensures { result.now ≡ trimmed_end text.now }
{
    let mut rest = text;
    while let [others @ .., b] = rest {
        if !is_blank(*b) {
            break;
        }
        rest = others;
    }
    rest
}

/// The text without the blanks on both sides.
pub fn trim(text: &[u8]) -> &[u8]
    ensures { result.now ≡ trimmed text.now }
{
    trim_end(trim_start(text))
}
