//! With which entries a run on an empty spool begins and goes on: laws over the definitions alone.
#![tactic(auto)]

ghost use Rattle.q_fronts.specs.Fitting.{FrontsFit};
ghost use Rattle.q_fronts.specs.Fronts.{FrontsGoOn, LedgersAreOne, LedgersGoOn};
ghost use Rattle.q_fronts.specs.Openings.{FrontsOpen, LedgersOpen};

/// A run begins with an entry exactly where that begins a life of a generation that there is.
pub fn fronts_open()
    ensures { FrontsOpen }
{}

/// Then its ledger is that of the life on an empty spool.
pub fn ledgers_open()
    ensures { LedgersOpen }
{}

/// An entry continues a front of a run exactly where it comes from outside, is allowed and nothing is
/// due, or where it is what is due.
pub fn fronts_go_on()
    ensures { FrontsGoOn }
{}

/// Then the ledger behind it is the ledger after it.
pub fn ledgers_go_on()
    ensures { LedgersGoOn }
{}

/// A front that has begun has one ledger.
pub fn ledgers_are_one()
    ensures { LedgersAreOne }
{}

/// The ledger after a front that has begun fits together.
pub fn fronts_fit()
    ensures { FrontsFit }
{}
