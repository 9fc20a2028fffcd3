//! What decides nothing in a ledger: contents, original addresses and versions of its messages, and the
//! entries of its life beyond what is counted of them. Laws over the definitions alone.
#![tactic(auto)]

ghost use Rattle.q_bare.specs.Judging.{HeldBegins, HeldGoesOn, HeldJudges, HeldRules};
ghost use Rattle.q_bare.specs.Laws.{AreCountsKept, AreRowsSame, IsFoundBare, IsNextSame, IsStepSame};
ghost use Rattle.q_model.specs.Ledger.{Ledger};

/// Messages are found bare, and leftovers, unread recipients and idle messages as ever.
pub fn what_is_found()
    ensures { (l : Ledger) → IsFoundBare l }
{}

/// Each row says the same of a bare ledger and the counts.
pub fn rows_are_the_same()
    ensures { AreRowsSame }
{}

/// The next decision of a bare ledger and the counts is the same.
pub fn next_is_the_same()
    ensures { IsNextSame }
{}

/// What an entry changes of a bare ledger is what it changes of the ledger.
pub fn steps_are_the_same()
    ensures { IsStepSame }
{}

/// Counts are kept entry by entry, with no entry kept.
pub fn counts_are_kept()
    ensures { AreCountsKept }
{}

/// A bare ledger and counts tell with which entries a run on an empty spool goes on.
pub fn held_judges()
    ensures { HeldJudges }
{}

/// They tell which rule another entry breaks.
pub fn held_rules()
    ensures { HeldRules }
{}

/// Behind the first entry they are those of the life on an empty spool.
pub fn held_begins()
    ensures { HeldBegins }
{}

/// Behind an entry that goes on they follow from what they were.
pub fn held_goes_on()
    ensures { HeldGoesOn }
{}
