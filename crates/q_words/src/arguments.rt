//! The words of arguments.
ghost use Rattle.std.specs.Prelude.{◌≡◌, codes, option_map};
ghost use Rattle.clap.specs.Words.{first_of, found_of, rows_of};
ghost use Rattle.q_words.specs.Given.{HasNumber};
ghost use Rattle.q_words.specs.Requests.{IsNumber};

use clap::ArgMatches;

/// The first word of an argument.
pub(crate) fn first_of<'a>(matches: &ArgMatches<'a>, id: &str) -> Option<&'a str>
    ensures { option_map (λ w. w.now) result ≡ first_of id.now (rows_of (found_of matches.now)) }
{
    matches.get_str(id)
}

/// How many rests may be given.
pub(crate) fn rests_of<'a>(matches: &ArgMatches<'a>) -> u32
    requires { HasNumber matches.now (codes "rests") 0 1000000000 }
    ensures { IsNumber (rows_of (found_of matches.now)) (codes "rests") result }
{
    matches.get_one::<u32>("rests").unwrap()
}
