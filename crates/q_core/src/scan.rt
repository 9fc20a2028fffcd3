//! Scans of the deferred queue: how they are asked for and end, and what looks have shown.
ghost use Rattle.std.specs.Prelude.{◌≡◌, Some};
ghost use Rattle.q_core.specs.Facts.{IsDated};
ghost use Rattle.q_core.specs.Answers.{AgreesByScan};
ghost use Rattle.q_core.specs.Agrees.{ForLedgers, Agrees, found_active, found_incoming};
ghost use Rattle.q_core.specs.Changes.{asked_scan, looked_at, scan_ended};
ghost use Rattle.q_model.specs.Scans.{joined_request, new_scan};
ghost use Rattle.q_model.specs.declared.rows.Scan.{Scan};

use crate::clock::Clock;
use crate::decision::Found;
use crate::state::{Core, Seen};
use q_model::{Request, Scan};

/// The scan that a request begins.
fn begun(clock: Clock, request: Request) -> Scan
    ensures { result ≡ new_scan clock.seconds request }
{
    let until = match request {
        Request::Due => clock.seconds,
        Request::All => 999_999_999_999,
    };
    Scan { place: None, until }
}

/// Of two requests the one for all wins.
fn joined(asked: Option<Request>, request: Request) -> Request
    ensures { result ≡ joined_request asked request }
{
    match asked {
        Some(Request::All) => Request::All,
        _ => request,
    }
}

impl Core {
    /// Asks for a scan, which ignores due times where it was told so.
    pub(crate) fn ask_scan(&mut self)
        ensures { self.new ≡ asked_scan self.old }
    {
        let request = if self.ignores {
            Request::All
        } else {
            Request::Due
        };
        match self.scan {
            None => {
                self.scan = Some(begun(self.clock, request));
                self.deferred = Seen::Unknown;
            }
            Some(_) => {
                self.asked = Some(joined(self.asked, request));
            }
        }
        self.ignores = false;
    }

    /// What a look at active has shown.
    pub(crate) fn found_active(&mut self, found: Found)
        ensures change { self.new ≡ record self.old { active = Seen.Known found } }
        ensures agrees { ForLedgers self.old (λ w l. found ≡ found_active l → Agrees w self.new l) }
    {
        self.active = Seen::Known { found };
    }

    /// What a look at incoming has shown.
    pub(crate) fn found_incoming(&mut self, found: Found)
        ensures change { self.new ≡ record self.old { incoming = Seen.Known found } }
        ensures agrees { ForLedgers self.old (λ w l. found ≡ found_incoming l
            → Agrees w self.new l) }
    {
        self.incoming = Seen::Known { found };
    }

    /// A scan that is over gives way to the one that was asked for meanwhile.
    fn end_scan(&mut self)
        ensures { self.new ≡ scan_ended self.old self.old.asked }
    {
        match self.asked {
            None => {
                self.scan = None;
            }
            Some(request) => {
                self.scan = Some(begun(self.clock, request));
                self.asked = None;
            }
        }
        self.deferred = Seen::Unknown;
    }

    fn look_at(&mut self, found: Found)
        requires { IsDated found }
        ensures { self.new ≡ looked_at self.old found }
    {
        if found.is_nothing() {
            self.end_scan();
        } else {
            self.deferred = Seen::Known { found };
        }
    }

    /// What a look at deferred has shown.
    pub(crate) fn found_deferred(&mut self, found: Found)
        requires { IsDated found }
        ensures change { self.new ≡ looked_at self.old found }
        ensures agrees { ForLedgers self.old (λ w l. AgreesByScan w self.old self.new found l) }
    {
        self.look_at(found);
    }
}
