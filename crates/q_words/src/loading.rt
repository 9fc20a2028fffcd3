//! The words of `load`.
ghost use Rattle.std.specs.Prelude.{◌≤◌, codes, map, string_bytes};
ghost use Rattle.clap.specs.Words.{found_of, matches_of, rows_of};
ghost use Rattle.q_words.specs.Commands.{load_app};
ghost use Rattle.q_words.specs.Given.{HasNumber};
ghost use Rattle.q_words.specs.Requests.{IsLoad, IsNumber};
ghost use Rattle.q_words.specs.Usages.{is_load_usage, IsAnswer};

use crate::commands::load_matches;
use crate::error::{WordsError, refused};
use crate::request::Request;
use clap::ArgMatches;
use std::alloc::Global;

fn mails_of<'a>(matches: &ArgMatches<'a>) -> u32
    requires { HasNumber matches.now (codes "mails") 1 2000 }
    ensures number { IsNumber (rows_of (found_of matches.now)) (codes "mails") result }
    ensures some { 1 ≤ result }
    ensures few { result ≤ 2000 }
{
    matches.get_one::<u32>("mails").unwrap()
}

/// The load that the words ask for.
fn load_in<'a>(matches: &ArgMatches<'a>) -> Request
    requires { HasNumber matches.now (codes "mails") 1 2000 }
    ensures { IsLoad (rows_of (found_of matches.now)) result }
{
    Request::Load {
        mails: mails_of(matches),
    }
}

/// What the words of `load` ask for, the command in front.
pub(crate) fn read_load(alloc: Global, words: &[String]) -> Result<Request, WordsError>
    ensures { IsAnswer (is_load_usage (map string_bytes words.now))
        (IsLoad (matches_of load_app (map string_bytes words.now))) result }
{
    match load_matches(alloc, words) {
        Ok(matches) => Ok(load_in(&matches)),
        Err(error) => Err(refused(error)),
    }
}
