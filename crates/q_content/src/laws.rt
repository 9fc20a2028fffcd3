//! What encoding says of the lines of a content. A law is the contract of a function with nothing
//! to do.
ghost use Rattle.std.specs.Prelude.{◌≡◌, ◌++◌, List, ℕ};
ghost use Rattle.q_smtp.specs.ContentLines.{sent_content};
ghost use Rattle.q_content.specs.Encoding.{behind_bytes, line_start, sent_bytes, sent_rest};
ghost use Rattle.q_content.specs.declared.encoding.ContentLine.{ContentLine};

/// A content that is encoded from the start of a line to its end is sent by its lines, in whatever
/// pieces.
pub fn lines_are_sent()
    ensures whole { (content : List ℕ) → sent_rest line_start content ≡ sent_content content }
    ensures pieces { (l : ContentLine) (front rest : List ℕ)
        → sent_rest l (front ++ rest) ≡ sent_bytes l front ++ sent_rest (behind_bytes l front) rest }
{}
