//! The words of `listen`.
ghost use Rattle.std.specs.Prelude.{◌≤◌, codes, map, string_bytes};
ghost use Rattle.clap.specs.Words.{found_of, matches_of, rows_of};
ghost use Rattle.q_words.specs.Commands.{listen_app};
ghost use Rattle.q_words.specs.Given.{HasNumber};
ghost use Rattle.q_words.specs.Requests.{IsListen, IsNumber};
ghost use Rattle.q_words.specs.Usages.{is_listen_usage, IsAnswer};

use crate::arguments::rests_of;
use crate::commands::listen_matches;
use crate::error::{WordsError, refused};
use crate::request::Request;
use clap::ArgMatches;
use std::alloc::Global;

fn port_of<'a>(matches: &ArgMatches<'a>) -> u16
    requires { HasNumber matches.now (codes "port") 1 65535 }
    ensures number { IsNumber (rows_of (found_of matches.now)) (codes "port") result }
    ensures some { 1 ≤ result }
{
    matches.get_one::<u16>("port").unwrap()
}

fn count_of<'a>(matches: &ArgMatches<'a>) -> u32
    requires { HasNumber matches.now (codes "count") 1 1000000 }
    ensures number { IsNumber (rows_of (found_of matches.now)) (codes "count") result }
    ensures some { 1 ≤ result }
    ensures few { result ≤ 1000000 }
{
    matches.get_one::<u32>("count").unwrap()
}

/// The listening that the words ask for.
fn listening_in<'a>(matches: &ArgMatches<'a>) -> Request
    requires port { HasNumber matches.now (codes "port") 1 65535 }
    requires count { HasNumber matches.now (codes "count") 1 1000000 }
    requires rests { HasNumber matches.now (codes "rests") 0 1000000000 }
    ensures { IsListen (rows_of (found_of matches.now)) result }
{
    Request::Listen {
        port: port_of(matches),
        count: count_of(matches),
        rests: u64::from(rests_of(matches)),
    }
}

/// What the words of `listen` ask for, the command in front.
pub(crate) fn read_listen(alloc: Global, words: &[String]) -> Result<Request, WordsError>
    ensures { IsAnswer (is_listen_usage (map string_bytes words.now))
        (IsListen (matches_of listen_app (map string_bytes words.now))) result }
{
    match listen_matches(alloc, words) {
        Ok(matches) => Ok(listening_in(&matches)),
        Err(error) => Err(refused(error)),
    }
}
