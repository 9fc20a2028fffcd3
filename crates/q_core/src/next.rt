//! The next decision: the first of eight rules that applies.
ghost use Rattle.std.specs.Prelude.{◌≡◌};
ghost use Rattle.q_core.specs.Agrees.{ForLedgers};
ghost use Rattle.q_core.specs.Deciding.{IsNextDecision, IsPlaced, clearing_on, decide_in, first_rule_in, scan_look_in};
ghost use Rattle.q_model.specs.Next.{next};

use crate::decision::Decision;
use crate::state::{Core, Seen};

impl Core {
    /// The look at deferred that a scan still wants.
    fn scan_look(&self) -> Option<Decision>
        ensures { result ≡ scan_look_in self.now.deferred self.now.scan }
    {
        match &self.scan {
            None => None,
            Some(scan) => match &self.deferred {
                Seen::Unknown => Some(Decision::LookDeferred {
                    after: scan.place,
                    until: scan.until,
                }),
                Seen::Known { .. } => None,
            },
        }
    }

    /// The rules from the clearing of leftovers on.
    fn clearing_on(&self) -> Option<Decision>
        ensures { result ≡ clearing_on self.now }
    {
        if let Some(decision) = self.next_clearing() {
            return Some(decision);
        }
        if let Some(decision) = self.next_admission() {
            return Some(decision);
        }
        if let Some(decision) = self.next_read() {
            return Some(decision);
        }
        self.next_start()
    }

    /// The first of the eight rules that has a decision.
    fn first_rule(&self) -> Option<Decision>
        ensures { result ≡ first_rule_in self.now }
    {
        if let Some(decision) = self.first_need() {
            return Some(decision);
        }
        if let Some(decision) = self.next_sync() {
            return Some(decision);
        }
        if let Some(decision) = self.next_skip() {
            return Some(decision);
        }
        if let Some(decision) = self.next_finish() {
            return Some(decision);
        }
        self.clearing_on()
    }

    /// The next decision, or the look that is wanted before it is known. A scan is looked at before
    /// anything else, since one without a next message is over at once.
    pub(crate) fn decide(&self) -> Option<Decision>
        ensures { result ≡ decide_in self.now }
    {
        if !self.timed {
            return None;
        }
        if let Some(look) = self.scan_look() {
            return Some(look);
        }
        self.first_rule()
    }

    /// What `next_decision` would answer, with no change: the next decision of the ledger, or the
    /// look or read that is wanted before it is known. It is None exactly where the ledger is quiet.
    pub fn decision(&self) -> Option<Decision>
        ensures value { result ≡ decide_in self.now }
        ensures ledger { ForLedgers self.now (λ w l. IsNextDecision w l self.now result (next w l)) }
        ensures placed { ForLedgers self.now (λ w l. IsPlaced l result) }
    {
        self.decide()
    }
}
