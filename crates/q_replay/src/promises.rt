//! What holds of all calls on one spool, whatever comes: the promises of lives, of the calls that ran
//! them.
ghost use Rattle.q_replay.specs.Spools.{WhateverComes};

use q_host::Host;

/// Of every list of calls on a spool that stands for an orderly book, as an empty one, each of which
/// served it and came to its end or was cut off by a crash at any moment, there is a list of lives: each
/// on the book that the one before it left, of allowed items, with the lines that the calls told. So at
/// each entry the limits, windows, delays and accounts are kept; who is done has a cause; only what wasn't synced
/// is repeated; each message stands in one queue file, or left wholly done; no bounce is made twice; and
/// preemption puts no more deliveries before a job than its recipients allow.
/// The call does nothing.
pub fn promises_hold<H: Host>(_host: &H)
    ensures { WhateverComes H.view }
{
    q_lives::limits_are_kept();
    q_lives::windows_are_kept();
    q_lives::deliveries_keep_apart();
    q_lives::deliveries_go_one_by_one();
    q_lives::accounts_are_kept();
    q_lives::done_has_cause();
    q_lives::repeats_unsynced();
    q_lives::stands_once_or_left();
    q_lives::leaves_done();
    q_lives::bounced_once();
    q_lives::bounced_at_most_once();
    q_lives::stays_lawful();
    q_inflation::inflation_is_bounded();
    q_inflation::none_at_no_cost();
}
