//! A host in memory, its making and its crashes.
ghost use Rattle.std.specs.Prelude.{◌≡◌, OnOk, OnErr, option_copied};
ghost use Rattle.q_model.specs.declared.spot.Area.{Area};
ghost use Rattle.q_host.specs.View.{Remains, now};
ghost use Rattle.q_mem_host.specs.Event.{place, crash, host_state_of, host_state_after};
ghost use Rattle.q_mem_host.specs.Left.{nothing, view_of};
ghost use Rattle.q_mem_host.specs.Memo.{new_memo, with_event, with_plan};
ghost use Rattle.q_mem_host.specs.Plans.{no_plan, stopping, failing_at};

use crate::Rot;
use crate::file::File;
use crate::placed_files::{PlacedFile, fall_all, find, put_file};
use crate::plan::Plan;
use crate::record::{Call, make_room, note};
use q_model::{Area, Name, NoMemory};
use std::alloc::Global;
use std::marker::Model;

/// Files in memory with what isn't synced, the told bytes, and a record of what was done. A
/// contract sees it as this record, its counts of faults, and the calls that are to fail.
#[derive(Drop)]
pub struct MemHost {
    pub(crate) alloc: Global,
    pub(crate) files: Vec<PlacedFile>,
    pub(crate) told: Vec<u8>,
    pub(crate) calls: Vec<Call>,
    // a crash behind the calls that isn't noted yet
    pub(crate) crashed: Option<Rot>,
    pub(crate) plan: Plan,
    pub(crate) disk_faults: u64,
    pub(crate) tell_faults: u64,
}

impl Model for MemHost {
    ghost use Rattle.q_mem_host.specs.Memo.{Memo};
    ghost use Rattle.q_mem_host.specs.Data.{KeepsUp};
    ghost use Rattle.q_mem_host.specs.Record.{history};

    ghost Value = { Memo };

    ghost view = { λ m. record {
      history = history m.calls.items m.crashed;
      faults = record { disk = m.disk_faults; tell = m.tell_faults };
      plan = m.plan;
    } };

    ghost invariant = { λ m. KeepsUp m.files.items m.told.items (history m.calls.items m.crashed) };
}

impl MemHost {
    /// A host with no files, and with nothing told.
    pub fn new(alloc: Global) -> MemHost
        ensures memo { result ≡ new_memo }
        ensures empty { now (view_of result.history) ≡ nothing }
        ensures remains { (c : Remains) → (view_of result.history).may_leave c → c ≡ nothing }
    {
        MemHost {
            alloc,
            files: Vec::new(alloc),
            told: Vec::new(alloc),
            calls: Vec::new(alloc),
            crashed: None,
            plan: Plan::none(),
            disk_faults: 0,
            tell_faults: 0,
        }
    }

    /// Puts a synced file at a place, over any file there. This is no call of the host: it isn't
    /// counted, and isn't made to fail.
    pub fn put_file(&mut self, area: Area, name: Name, bytes: &[u8]) -> Result<(), NoMemory>
        ensures ok { OnOk result (self.new ≡ with_event (place area name bytes.now) self.old) }
        ensures err { OnErr result (self.new ≡ self.old) }
    {
        let copy = bytes.to_vec(self.alloc)?;
        let file = File::firm(self.alloc, bytes.to_vec(self.alloc)?);
        self.files.reserve(1)?;
        make_room(&mut self.calls)?;
        put_file(&mut self.files, area, name, file);
        note(
            &mut self.calls,
            &mut self.crashed,
            Call::Place(area, name, copy),
        );
        Ok(())
    }

    /// The bytes of a file, where one stands there. This is no call of the host.
    pub fn file(&self, area: Area, name: Name) -> Option<&[u8]>
        ensures { option_copied result ≡ (view_of self.now.history).files area name }
    {
        match find(&self.files, area, name) {
            Some(file) => Some(file.bytes.as_slice()),
            None => None,
        }
    }

    /// What was told.
    pub fn told(&self) -> &[u8]
        ensures { result.now ≡ (view_of self.now.history).told }
    {
        &self.told
    }

    /// After so many further calls every call fails. A call that is made to fail does nothing.
    pub fn stop_after(&mut self, calls: u64)
        ensures { self.new ≡ with_plan (stopping calls self.old.plan) self.old }
    {
        self.plan.stop_after(calls);
    }

    /// The call of that number from now, counted from 1, fails alone and does nothing. There is
    /// one such call at most: the last number given counts.
    pub fn fail_call(&mut self, call: u64)
        ensures { self.new ≡ with_plan (failing_at call self.old.plan) self.old }
    {
        self.plan.fail_call(call);
    }

    fn fall_down(&mut self, choice: Rot)
        ensures left { host_state_of self.new.history ≡ host_state_after (crash choice)
            (host_state_of self.old.history) }
        ensures faults { self.new.faults ≡ self.old.faults }
        ensures plan { self.new.plan ≡ no_plan }
    {
        self.plan = Plan::none();
        // After a crash all is on the disk, so another one changes nothing.
        match self.crashed {
            None => {
                fall_all(&mut self.files, choice);
                self.crashed = Some(choice);
            }
            Some(_) => {}
        }
    }

    /// The host after a crash, with the told bytes, the counts of faults, and no calls that are to
    /// fail. All that it has is on the disk.
    pub fn crash(self, choice: Rot) -> MemHost
        ensures left { host_state_of result.history ≡ host_state_after (crash choice)
            (host_state_of self.history) }
        ensures faults { result.faults ≡ self.faults }
        ensures plan { result.plan ≡ no_plan }
        // What is there now is among what a crash might have left, and from now on a crash leaves just that.
        ensures allowed { (view_of self.history).may_leave (now (view_of result.history)) }
        ensures durable { (c : Remains) → (view_of result.history).may_leave c
            → c ≡ now (view_of result.history) }
    {
        let mut host = self;
        host.fall_down(choice);
        host
    }
}
