//! The commands as clap reads their words.
ghost use Rattle.std.specs.Prelude.{◌≡◌, codes, false, map, IfOk, string_bytes};
ghost use Rattle.clap.specs.Words.{app_of, fault_of, FailsBy, found_of, matches_of, rows_of, rule_of, new_app};
ghost use Rattle.q_words.specs.Commands.{domain_app, domain_rule, drain_app, flags_app, id_app, id_rule, listen_app, load_app};
ghost use Rattle.q_words.specs.Commands.{address_rule, qshape_app, route_app, submit_app};
ghost use Rattle.q_words.specs.Commands.{count_rule, flag_rule, mails_rule, port_rule, rests_rule};
ghost use Rattle.q_words.specs.Commands.{sender_rule, to_rule};
ghost use Rattle.q_words.specs.Commands.{buckets_rule, minutes_rule, queues_rule};
ghost use Rattle.q_words.specs.Given.{HasNumber};

use clap::{Arg, ArgAction, ArgMatches, Command, Error, value_parser};
use std::alloc::{AllocError, Global};

/// A flag that takes no value.
fn flag<'a>(alloc: Global, id: &'a str, letter: char) -> Arg<'a>
    ensures rule { rule_of result ≡ flag_rule id.entry.now letter }
    ensures local { result.global ≡ false }
{
    Arg::new(alloc, id).short(letter).action(ArgAction::SetTrue)
}

fn sender<'a>(alloc: Global) -> Arg<'a>
    ensures rule { rule_of result ≡ sender_rule }
    ensures local { result.global ≡ false }
{
    Arg::new(alloc, "sender").required(true)
}

fn to<'a>(alloc: Global) -> Arg<'a>
    ensures rule { rule_of result ≡ to_rule }
    ensures local { result.global ≡ false }
{
    Arg::new(alloc, "to").required(true).num_args(1..)
}

/// How many rests may be given, behind this letter.
fn rests<'a>(alloc: Global, letter: char) -> Arg<'a>
    ensures rule { rule_of result ≡ rests_rule letter }
    ensures local { result.global ≡ false }
{
    Arg::new(alloc, "rests")
        .short(letter)
        .action(ArgAction::Set)
        .value_parser(value_parser!(u32).range(0..=1_000_000_000))
        .default_value("1000000")
}

fn port<'a>(alloc: Global) -> Arg<'a>
    ensures rule { rule_of result ≡ port_rule }
    ensures local { result.global ≡ false }
{
    Arg::new(alloc, "port")
        .short('p')
        .action(ArgAction::Set)
        .value_parser(value_parser!(u16).range(1..=65_535))
        .default_value("2525")
}

fn count<'a>(alloc: Global) -> Arg<'a>
    ensures rule { rule_of result ≡ count_rule }
    ensures local { result.global ≡ false }
{
    Arg::new(alloc, "count")
        .short('n')
        .action(ArgAction::Set)
        .value_parser(value_parser!(u32).range(1..=1_000_000))
        .default_value("1")
}

fn mails<'a>(alloc: Global) -> Arg<'a>
    ensures rule { rule_of result ≡ mails_rule }
    ensures local { result.global ≡ false }
{
    Arg::new(alloc, "mails")
        .required(true)
        .action(ArgAction::Set)
        .value_parser(value_parser!(u32).range(1..=2000))
}

fn buckets<'a>(alloc: Global) -> Arg<'a>
    ensures rule { rule_of result ≡ buckets_rule }
    ensures local { result.global ≡ false }
{
    Arg::new(alloc, "buckets")
        .short('b')
        .action(ArgAction::Set)
        .value_parser(value_parser!(u8).range(2..=20))
        .default_value("10")
}

fn minutes<'a>(alloc: Global) -> Arg<'a>
    ensures rule { rule_of result ≡ minutes_rule }
    ensures local { result.global ≡ false }
{
    Arg::new(alloc, "minutes")
        .short('t')
        .action(ArgAction::Set)
        .value_parser(value_parser!(u32).range(1..=10_000))
        .default_value("5")
}

fn queues<'a>(alloc: Global) -> Arg<'a>
    ensures rule { rule_of result ≡ queues_rule }
    ensures local { result.global ≡ false }
{
    Arg::new(alloc, "queues").num_args(0..)
}

fn submit<'a>(alloc: Global) -> Result<Command<'a>, AllocError>
    ensures { IfOk result (λ c. app_of c ≡ submit_app) }
{
    Command::new(alloc, "submit")
        .arg(sender(alloc))?
        .arg(to(alloc))
}

fn drain<'a>(alloc: Global) -> Result<Command<'a>, AllocError>
    ensures { IfOk result (λ c. app_of c ≡ drain_app) }
{
    Command::new(alloc, "drain").arg(rests(alloc, 'n'))
}

fn listen<'a>(alloc: Global) -> Result<Command<'a>, AllocError>
    ensures { IfOk result (λ c. app_of c ≡ listen_app) }
{
    Command::new(alloc, "listen")
        .arg(port(alloc))?
        .arg(count(alloc))?
        .arg(rests(alloc, 'r'))
}

fn load<'a>(alloc: Global) -> Result<Command<'a>, AllocError>
    ensures { IfOk result (λ c. app_of c ≡ load_app) }
{
    Command::new(alloc, "load").arg(mails(alloc))
}

fn id<'a>(alloc: Global) -> Arg<'a>
    ensures rule { rule_of result ≡ id_rule }
    ensures local { result.global ≡ false }
{
    Arg::new(alloc, "id").required(true)
}

fn domain<'a>(alloc: Global) -> Arg<'a>
    ensures rule { rule_of result ≡ domain_rule }
    ensures local { result.global ≡ false }
{
    Arg::new(alloc, "domain").required(true)
}

/// The addresses of `route`.
fn addresses<'a>(alloc: Global) -> Arg<'a>
    ensures rule { rule_of result ≡ address_rule }
    ensures local { result.global ≡ false }
{
    Arg::new(alloc, "address").required(true).num_args(1..)
}

fn route<'a>(alloc: Global) -> Result<Command<'a>, AllocError>
    ensures { IfOk result (λ c. app_of c ≡ route_app) }
{
    Command::new(alloc, "route").arg(addresses(alloc))
}

/// A command that takes an id.
fn act<'a>(alloc: Global, name: &'a str) -> Result<Command<'a>, AllocError>
    ensures { IfOk result (λ c. app_of c ≡ id_app name.entry.now) }
{
    Command::new(alloc, name).arg(id(alloc))
}

fn flush<'a>(alloc: Global) -> Result<Command<'a>, AllocError>
    ensures { IfOk result (λ c. app_of c ≡ domain_app) }
{
    Command::new(alloc, "flush").arg(domain(alloc))
}

/// The flags of `qshape`.
fn with_flags<'a>(alloc: Global) -> Result<Command<'a>, AllocError>
    ensures { IfOk result (λ c. app_of c ≡ flags_app) }
{
    Command::new(alloc, "qshape")
        .arg(flag(alloc, "linear", 'l'))?
        .arg(flag(alloc, "senders", 's'))
}

fn qshape<'a>(alloc: Global) -> Result<Command<'a>, AllocError>
    ensures { IfOk result (λ c. app_of c ≡ qshape_app) }
{
    with_flags(alloc)?
        .arg(buckets(alloc))?
        .arg(minutes(alloc))?
        .arg(queues(alloc))
}

/// What the words of `submit` give, the command in front. They are refused exactly where they break
/// its form.
pub(crate) fn submit_matches<'a>(
    alloc: Global,
    words: &'a [String],
) -> Result<ArgMatches<'a>, Error>
    ensures refused { FailsBy (fault_of submit_app (map string_bytes words.entry.now)) result }
    ensures found { IfOk result (λ m. rows_of (found_of m)
        ≡ matches_of submit_app (map string_bytes words.entry.now)) }
{
    let command = submit(alloc)?;
    command.try_get_matches_from(words)
}

/// The same of `drain`.
pub(crate) fn drain_matches<'a>(alloc: Global, words: &'a [String]) -> Result<ArgMatches<'a>, Error>
    ensures refused { FailsBy (fault_of drain_app (map string_bytes words.entry.now)) result }
    ensures found { IfOk result (λ m. rows_of (found_of m)
        ≡ matches_of drain_app (map string_bytes words.entry.now)) }
    ensures rests { IfOk result (λ m. HasNumber m (codes "rests") 0 1000000000) }
{
    let command = drain(alloc)?;
    command.try_get_matches_from(words)
}

/// The same of `listen`.
pub(crate) fn listen_matches<'a>(
    alloc: Global,
    words: &'a [String],
) -> Result<ArgMatches<'a>, Error>
    ensures refused { FailsBy (fault_of listen_app (map string_bytes words.entry.now)) result }
    ensures found { IfOk result (λ m. rows_of (found_of m)
        ≡ matches_of listen_app (map string_bytes words.entry.now)) }
    ensures port { IfOk result (λ m. HasNumber m (codes "port") 1 65535) }
    ensures count { IfOk result (λ m. HasNumber m (codes "count") 1 1000000) }
    ensures rests { IfOk result (λ m. HasNumber m (codes "rests") 0 1000000000) }
{
    let command = listen(alloc)?;
    command.try_get_matches_from(words)
}

/// The same of `load`.
pub(crate) fn load_matches<'a>(alloc: Global, words: &'a [String]) -> Result<ArgMatches<'a>, Error>
    ensures refused { FailsBy (fault_of load_app (map string_bytes words.entry.now)) result }
    ensures found { IfOk result (λ m. rows_of (found_of m)
        ≡ matches_of load_app (map string_bytes words.entry.now)) }
    ensures mails { IfOk result (λ m. HasNumber m (codes "mails") 1 2000) }
{
    let command = load(alloc)?;
    command.try_get_matches_from(words)
}

/// The same of `qshape`.
pub(crate) fn qshape_matches<'a>(
    alloc: Global,
    words: &'a [String],
) -> Result<ArgMatches<'a>, Error>
    ensures refused { FailsBy (fault_of qshape_app (map string_bytes words.entry.now)) result }
    ensures found { IfOk result (λ m. rows_of (found_of m)
        ≡ matches_of qshape_app (map string_bytes words.entry.now)) }
    ensures buckets { IfOk result (λ m. HasNumber m (codes "buckets") 2 20) }
    ensures minutes { IfOk result (λ m. HasNumber m (codes "minutes") 1 10000) }
{
    let command = qshape(alloc)?;
    command.try_get_matches_from(words)
}

/// The same of a command that takes an id.
pub(crate) fn id_matches<'a>(
    alloc: Global,
    name: &'a str,
    words: &'a [String],
) -> Result<ArgMatches<'a>, Error>
    ensures refused { FailsBy
        (fault_of (id_app name.entry.now) (map string_bytes words.entry.now)) result }
    ensures found { IfOk result (λ m. rows_of (found_of m)
        ≡ matches_of (id_app name.entry.now) (map string_bytes words.entry.now)) }
{
    let command = act(alloc, name)?;
    command.try_get_matches_from(words)
}

/// The same of `flush`.
pub(crate) fn domain_matches<'a>(
    alloc: Global,
    words: &'a [String],
) -> Result<ArgMatches<'a>, Error>
    ensures refused { FailsBy (fault_of domain_app (map string_bytes words.entry.now)) result }
    ensures found { IfOk result (λ m. rows_of (found_of m)
        ≡ matches_of domain_app (map string_bytes words.entry.now)) }
{
    let command = flush(alloc)?;
    command.try_get_matches_from(words)
}

/// The same of `route`.
pub(crate) fn route_matches<'a>(alloc: Global, words: &'a [String]) -> Result<ArgMatches<'a>, Error>
    ensures refused { FailsBy (fault_of route_app (map string_bytes words.entry.now)) result }
    ensures found { IfOk result (λ m. rows_of (found_of m)
        ≡ matches_of route_app (map string_bytes words.entry.now)) }
{
    let command = route(alloc)?;
    command.try_get_matches_from(words)
}

/// The same of a command that takes no words.
pub(crate) fn plain_matches<'a>(
    alloc: Global,
    name: &'a str,
    words: &'a [String],
) -> Result<ArgMatches<'a>, Error>
    ensures refused { FailsBy
        (fault_of (new_app name.entry.now) (map string_bytes words.entry.now)) result }
{
    Command::new(alloc, name).try_get_matches_from(words)
}
