//! The calls of a host in memory that may change it, by what they add to its record.
ghost use Rattle.std.specs.Prelude.{◌≡◌, ◌≤◌, IsSome, IsSomeAnd, length, OnOk};
ghost use Rattle.q_host.specs.Faults.{DiskCause, TellCause};
ghost use Rattle.q_model.specs.FaultCounts.{Rose};
ghost use Rattle.q_mem_host.specs.Event.{create, write, sync, rename, remove, tell};
ghost use Rattle.q_mem_host.specs.Left.{view_of};
ghost use Rattle.q_mem_host.specs.Planned.{Did, IsPlanned};

use crate::MemHost;
use crate::file::File;
use crate::placed_files::{move_file, overwrite_at, put_file, sync_at, take_away};
use crate::record::{Call, make_room, note};
use q_host::HostError;
use q_model::{Area, Name};

// One fault more, up to the last value of the count.
fn count(faults: &mut u64)
    ensures rose { Rose faults.old faults.new }
    ensures later { faults.old ≤ faults.new }
{
    *faults = faults.saturating_add(1);
}

impl MemHost {
    /// Counts a call for files, which may be one that is to fail.
    pub(crate) fn pass(&mut self) -> Result<(), HostError>
        ensures history { self.new.history ≡ self.old.history }
        ensures planned { IsPlanned HostError.Disk self.old self.new result }
        ensures ok { OnOk result (self.new.faults ≡ self.old.faults) }
        ensures cause { DiskCause self.old.faults self.new.faults result }
    {
        if self.plan.count_call() {
            count(&mut self.disk_faults);
            return Err(HostError::Disk);
        }
        Ok(())
    }

    /// Makes an empty file.
    pub(crate) fn make(&mut self, area: Area, name: Name) -> Result<(), HostError>
        ensures done { OnOk result (Did (create area name) self.old self.new) }
        ensures cause { DiskCause self.old.faults self.new.faults result }
        ensures planned { IsPlanned HostError.Disk self.old self.new result }
    {
        self.pass()?;
        self.files.reserve(1)?;
        make_room(&mut self.calls)?;
        let file = File::firm(self.alloc, Vec::new(self.alloc));
        put_file(&mut self.files, area, name, file);
        note(&mut self.calls, &mut self.crashed, Call::Create(area, name));
        Ok(())
    }

    /// Writes over a file, and past its end.
    pub(crate) fn overwrite(
        &mut self,
        area: Area,
        name: Name,
        at: u64,
        bytes: &[u8],
    ) -> Result<(), HostError>
        requires { IsSomeAnd ((view_of self.old.history).files area name) (λ file. at ≤ length file) }
        ensures done { OnOk result (Did (write area name at bytes.now) self.old self.new) }
        ensures cause { DiskCause self.old.faults self.new.faults result }
        ensures planned { IsPlanned HostError.Disk self.old self.new result }
    {
        self.pass()?;
        let copy = bytes.to_vec(self.alloc)?;
        make_room(&mut self.calls)?;
        overwrite_at(self.alloc, &mut self.files, area, name, at, bytes)?;
        note(
            &mut self.calls,
            &mut self.crashed,
            Call::Write(area, name, at, copy),
        );
        Ok(())
    }

    /// Syncs a file.
    pub(crate) fn sync_file(&mut self, area: Area, name: Name) -> Result<(), HostError>
        requires { IsSome ((view_of self.old.history).files area name) }
        ensures done { OnOk result (Did (sync area name) self.old self.new) }
        ensures cause { DiskCause self.old.faults self.new.faults result }
        ensures planned { IsPlanned HostError.Disk self.old self.new result }
    {
        self.pass()?;
        make_room(&mut self.calls)?;
        sync_at(&mut self.files, area, name);
        note(&mut self.calls, &mut self.crashed, Call::Sync(area, name));
        Ok(())
    }

    /// Moves a file.
    pub(crate) fn relocate(
        &mut self,
        area: Area,
        name: Name,
        to: Area,
        new: Name,
    ) -> Result<(), HostError>
        requires { IsSome ((view_of self.old.history).files area name) }
        ensures done { OnOk result (Did (rename area name to new) self.old self.new) }
        ensures cause { DiskCause self.old.faults self.new.faults result }
        ensures planned { IsPlanned HostError.Disk self.old self.new result }
    {
        self.pass()?;
        make_room(&mut self.calls)?;
        move_file(&mut self.files, area, name, to, new);
        note(
            &mut self.calls,
            &mut self.crashed,
            Call::Rename(area, name, to, new),
        );
        Ok(())
    }

    /// Takes a file away.
    pub(crate) fn discard(&mut self, area: Area, name: Name) -> Result<(), HostError>
        ensures done { OnOk result (Did (remove area name) self.old self.new) }
        ensures cause { DiskCause self.old.faults self.new.faults result }
        ensures planned { IsPlanned HostError.Disk self.old self.new result }
    {
        self.pass()?;
        make_room(&mut self.calls)?;
        take_away(&mut self.files, area, name);
        note(&mut self.calls, &mut self.crashed, Call::Remove(area, name));
        Ok(())
    }

    /// Tells bytes.
    pub(crate) fn say(&mut self, bytes: &[u8]) -> Result<(), HostError>
        ensures done { OnOk result (Did (tell bytes.now) self.old self.new) }
        ensures cause { TellCause self.old.faults self.new.faults result }
        ensures planned { IsPlanned HostError.Tell self.old self.new result }
    {
        if self.plan.count_call() {
            count(&mut self.tell_faults);
            return Err(HostError::Tell);
        }
        let copy = bytes.to_vec(self.alloc)?;
        make_room(&mut self.calls)?;
        self.told.extend_from_slice(bytes)?;
        note(&mut self.calls, &mut self.crashed, Call::Tell(copy));
        Ok(())
    }
}
