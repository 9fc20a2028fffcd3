//! A walk over the names of an area.
ghost use Rattle.std.specs.Prelude.{◌≡◌, ◌<◌, ◌≤◌, [], IfOk, IfSome, IsSome, IsTrue, List, ℕ, None, OnOk, slice_get};
ghost use Rattle.q_host.specs.Calls.{Stays};
ghost use Rattle.q_host.specs.Faults.{DiskCause};
ghost use Rattle.q_host.specs.NamesLeft.{names_left};
ghost use Rattle.q_model.specs.SpoolFiles.{Files};
ghost use Rattle.q_scan.specs.Walks.{GoesForward, IsGiven, IsNextOf, IsStillAhead, IsUpToDate, IsWalked, LeavesAhead};
ghost use Rattle.q_scan.specs.Filled.{IsFilled, IsStepped};

use crate::fit::{Fit, fit_of};
use q_host::{Host, HostError};
use q_model::{Area, Moment, Name, Names, NoMemory};
use std::alloc::Global;
use std::marker::Model;

/// A walk over the names of an area. A contract sees it as its area, its place and the names that
/// were listed behind it and not given yet.
#[derive(Drop)]
pub struct Scan {
    area: Area,
    place: Option<Name>,
    names: Names,
    next: usize,
}

impl Model for Scan {
    ghost use Rattle.std.specs.Prelude.{◌≤◌, drop, length};
    ghost use Rattle.q_host.specs.Reads.{Rise};
    ghost use Rattle.q_scan.specs.Walks.{Walk};

    ghost Value = { Walk };

    ghost view = { λ s. record { area = s.area; place = s.place; ahead = drop s.next s.names } };

    // of at most 64 names those that are left rise behind the place
    ghost invariant = { λ s. (s.next ≤ length s.names) × (length s.names ≤ 64)
        × Rise s.place (drop s.next s.names) };
}

impl Scan {
    ghost use Rattle.q_host.specs.Reads.{Rise};

    /// A walk of the area from its first name on.
    pub fn new(alloc: Global, area: Area) -> Result<Scan, NoMemory>
        ensures area { IfOk result (λ scan. scan.area ≡ area) }
        ensures place { IfOk result (λ scan. scan.place ≡ None) }
        ensures up_to_date { IfOk result (λ scan. (f : Files) → IsUpToDate f scan) }
    {
        let names = Names::new(alloc)?;
        Ok(Scan {
            area,
            place: None,
            names,
            next: 0,
        })
    }

    /// The first of the names that are left.
    fn first(&self) -> Option<Name>
        ensures { result ≡ slice_get self.now.ahead 0 }
    {
        if self.next < self.names.len() {
            return Some(self.names.get(self.next));
        }
        None
    }

    /// Passes the first of the names that are left.
    fn step(&mut self)
        requires { IsSome (slice_get self.old.ahead 0) }
        ensures stepped { IsStepped self.old self.new }
        ensures fewer { names_left self.new.place < names_left self.old.place }
    {
        let name = self.names.get(self.next);
        // Any value has a name's form, so that one less is left.
        let _ = name.bytes();
        self.place = Some(name);
        self.next += 1;
    }

    /// Lists the names behind the place, where none is left.
    fn fill<H: Host>(&mut self, host: &mut H) -> Result<(), HostError>
        ensures area { self.new.area ≡ self.old.area }
        ensures place { self.new.place ≡ self.old.place }
        ensures rises { Rise self.new.place self.new.ahead }
        ensures filled { OnOk result (IsTrue H.tells
            → IsFilled (H.view host.old).files self.old self.new) }
        ensures stays { IsTrue H.tells → Stays (H.view host.old) (H.view host.new) }
        ensures cause { DiskCause (H.faults host.old) (H.faults host.new) result }
    {
        if self.next < self.names.len() {
            return Ok(());
        }
        self.next = 0;
        match host.list_after(self.area, self.place, &mut self.names) {
            Ok(()) => Ok(()),
            Err(error) => {
                self.names.clear();
                Err(error)
            }
        }
    }

    /// The next name of the area, in the order of bytes. In deferred that is the next one of a file
    /// with a due time of at most `until`; names of another form are passed over. In the other
    /// areas it is the next name of any form, and `until` is of no account.
    ///
    /// Where no name was added to the area since the walk began, or since the last `seek`, and none
    /// but those that were given was taken away, `None` comes exactly where no such name is left
    /// behind the last one that was given, or behind the one that `seek` named since.
    pub fn next<H: Host>(&mut self, host: &mut H, until: Moment) -> Result<Option<Name>, HostError>
        ensures area { self.new.area ≡ self.old.area }
        // Names rise, so that none comes twice.
        ensures given { IfOk result (λ o. IfSome o (IsGiven until self.old self.new)) }
        ensures forward { OnOk result (GoesForward self.old self.new) }
        // No more names are left, and fewer behind one that was given, whatever else is added.
        ensures left_over { OnOk result (names_left self.new.place ≤ names_left self.old.place) }
        ensures fewer { IfOk result (λ o. IfSome o (λ _.
            names_left self.new.place < names_left self.old.place)) }
        // No name that stands there is left out.
        ensures left { IfOk result (λ o. IsTrue H.tells → (n : List ℕ)
            → IsSome ((H.view host.old).files self.old.area n) → IsWalked self.old.area n
            → IsStillAhead self.old n → LeavesAhead until o self.new n) }
        ensures exact { IfOk result (λ o. IsTrue H.tells
            → IsUpToDate (H.view host.old).files self.old
            → IsNextOf (H.view host.old).files self.old until o) }
        ensures up_to_date { OnOk result (IsTrue H.tells
            → IsUpToDate (H.view host.old).files self.old
            → IsUpToDate (H.view host.old).files self.new) }
        ensures stays { IsTrue H.tells → Stays (H.view host.old) (H.view host.new) }
        ensures cause { DiskCause (H.faults host.old) (H.faults host.new) result }
    {
        loop {
            self.fill(host)?;
            let Some(name) = self.first() else {
                return Ok(None);
            };
            match fit_of(self.area, name, until) {
                Fit::Later => return Ok(None),
                Fit::Other => self.step(),
                Fit::Given => {
                    self.step();
                    return Ok(Some(name));
                }
            }
        }
    }

    /// Goes on behind this name, or from the first name on where it is None. The next call lists
    /// anew, so that no name is left out that was added before. It takes no memory.
    pub fn seek(&mut self, after: Option<Name>)
        ensures area { self.new.area ≡ self.old.area }
        ensures place { self.new.place ≡ after }
        ensures up_to_date { (f : Files) → IsUpToDate f self.new }
    {
        self.next = self.names.len();
        self.place = after;
    }
}
