//! Commands that take no words.
ghost use Rattle.std.specs.Prelude.{◌≡◌, map, string_bytes};
ghost use Rattle.q_words.specs.Usages.{is_plain_usage, IsAnswer};

use crate::commands::plain_matches;
use crate::error::{WordsError, refused};
use crate::request::Request;
use std::alloc::Global;

/// Whether a command without words takes these, the command in front.
pub(crate) fn read_plain(
    alloc: Global,
    name: &str,
    words: &[String],
    request: Request,
) -> Result<Request, WordsError>
    ensures { IsAnswer (is_plain_usage name.now (map string_bytes words.now))
        (λ r. r ≡ request) result }
{
    match plain_matches(alloc, name, words) {
        Ok(_) => Ok(request),
        Err(error) => Err(refused(error)),
    }
}
