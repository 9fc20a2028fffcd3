//! The words of `qshape`.
ghost use Rattle.std.specs.Prelude.{◌≡◌, ◌≤◌, codes, map, string_bytes};
ghost use Rattle.clap.specs.Words.{found_of, matches_of, rows_of};
ghost use Rattle.q_shape.specs.Buckets.{IsShape};
ghost use Rattle.q_words.specs.Commands.{qshape_app};
ghost use Rattle.q_words.specs.Given.{HasNumber};
ghost use Rattle.q_words.specs.Requests.{IsFlag, IsNumber, IsTableRequest, words_of};
ghost use Rattle.q_words.specs.Usages.{has_no_queue, is_qshape_usage, IsAnswer};

use crate::commands::qshape_matches;
use crate::error::{WordsError, refused};
use crate::queues::{are_queues, queues_of};
use clap::ArgMatches;
use q_shape::{ShapeOptions, TableRequest};
use std::alloc::Global;

fn flag<'a>(matches: &ArgMatches<'a>, id: &str) -> bool
    ensures { IsFlag (rows_of (found_of matches.now)) id.now result }
{
    matches.get_flag(id)
}

fn buckets<'a>(matches: &ArgMatches<'a>) -> u8
    requires { HasNumber matches.now (codes "buckets") 2 20 }
    ensures number { IsNumber (rows_of (found_of matches.now)) (codes "buckets") result }
    ensures some { 2 ≤ result }
    ensures few { result ≤ 20 }
{
    matches.get_one::<u8>("buckets").unwrap()
}

fn minutes<'a>(matches: &ArgMatches<'a>) -> u32
    requires { HasNumber matches.now (codes "minutes") 1 10000 }
    ensures number { IsNumber (rows_of (found_of matches.now)) (codes "minutes") result }
    ensures some { 1 ≤ result }
    ensures few { result ≤ 10000 }
{
    matches.get_one::<u32>("minutes").unwrap()
}

/// The options that the words give.
fn shape_in<'a>(matches: &ArgMatches<'a>) -> ShapeOptions
    requires buckets { HasNumber matches.now (codes "buckets") 2 20 }
    requires minutes { HasNumber matches.now (codes "minutes") 1 10000 }
    ensures shape { IsShape result }
    ensures linear { IsFlag (rows_of (found_of matches.now)) (codes "linear") result.linear }
    ensures buckets { IsNumber (rows_of (found_of matches.now)) (codes "buckets") result.buckets }
    ensures minutes { IsNumber (rows_of (found_of matches.now)) (codes "minutes") result.minutes }
{
    ShapeOptions {
        linear: flag(matches, "linear"),
        buckets: buckets(matches),
        minutes: minutes(matches),
    }
}

/// The table of the queues that these words name.
fn table_of<'a>(matches: &ArgMatches<'a>, words: &[&str]) -> Result<TableRequest, WordsError>
    requires buckets { HasNumber matches.now (codes "buckets") 2 20 }
    requires minutes { HasNumber matches.now (codes "minutes") 1 10000 }
    requires words { map (λ w. w.now) words.now
        ≡ words_of (codes "queues") (rows_of (found_of matches.now)) }
    ensures { IsAnswer (has_no_queue (rows_of (found_of matches.now)))
        (IsTableRequest (rows_of (found_of matches.now))) result }
{
    if !are_queues(words) {
        return Err(WordsError::NoQueue);
    }
    Ok(TableRequest {
        senders: flag(matches, "senders"),
        queues: queues_of(words),
        shape: shape_in(matches),
    })
}

/// The table that the words ask for.
fn table_in<'a>(matches: &ArgMatches<'a>) -> Result<TableRequest, WordsError>
    requires buckets { HasNumber matches.now (codes "buckets") 2 20 }
    requires minutes { HasNumber matches.now (codes "minutes") 1 10000 }
    ensures { IsAnswer (has_no_queue (rows_of (found_of matches.now)))
        (IsTableRequest (rows_of (found_of matches.now))) result }
{
    match matches.get_strs("queues") {
        Some(words) => table_of(matches, words),
        None => table_of(matches, &[]),
    }
}

/// The table that the words of `qshape` ask for, the command in front.
pub(crate) fn read_table(alloc: Global, words: &[String]) -> Result<TableRequest, WordsError>
    ensures { IsAnswer (is_qshape_usage (map string_bytes words.now))
        (IsTableRequest (matches_of qshape_app (map string_bytes words.now))) result }
{
    match qshape_matches(alloc, words) {
        Ok(matches) => table_in(&matches),
        Err(error) => Err(refused(error)),
    }
}
