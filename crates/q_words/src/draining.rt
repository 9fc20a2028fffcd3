//! The words of `drain`.
ghost use Rattle.std.specs.Prelude.{codes, map, string_bytes};
ghost use Rattle.clap.specs.Words.{found_of, matches_of, rows_of};
ghost use Rattle.q_words.specs.Commands.{drain_app};
ghost use Rattle.q_words.specs.Given.{HasNumber};
ghost use Rattle.q_words.specs.Requests.{IsDrain};
ghost use Rattle.q_words.specs.Usages.{is_drain_usage, IsAnswer};

use crate::arguments::rests_of;
use crate::commands::drain_matches;
use crate::error::{WordsError, refused};
use crate::request::Request;
use clap::ArgMatches;
use std::alloc::Global;

/// The drain that the words ask for.
fn drain_in<'a>(matches: &ArgMatches<'a>) -> Request
    requires { HasNumber matches.now (codes "rests") 0 1000000000 }
    ensures { IsDrain (rows_of (found_of matches.now)) result }
{
    Request::Drain {
        rests: u64::from(rests_of(matches)),
    }
}

/// What the words of `drain` ask for, the command in front.
pub(crate) fn read_drain(alloc: Global, words: &[String]) -> Result<Request, WordsError>
    ensures { IsAnswer (is_drain_usage (map string_bytes words.now))
        (IsDrain (matches_of drain_app (map string_bytes words.now))) result }
{
    match drain_matches(alloc, words) {
        Ok(matches) => Ok(drain_in(&matches)),
        Err(error) => Err(refused(error)),
    }
}
