//! What holds of all calls of `qmgr` on one spool, whatever comes.
ghost use Rattle.q_top.specs.Promises.{WhateverIsCalled};

use q_host::Host;

/// Whatever calls of `qmgr` are made one after another on a spool that stands for an orderly book,
/// as an empty one, with whatever words, texts, clocks, connections and doors, each to its end or
/// cut off by a crash at any moment, inside the calls of the disk too: what they told are the lines
/// of lives, each on the book that the one before it left, and of these all promises of `q_lives`
/// and `q_inflation` hold. The call does nothing.
pub fn whatever_is_called<H: Host>(host: &H)
    ensures { WhateverIsCalled H.view }
{
    q_replay::promises_hold(host);
}
