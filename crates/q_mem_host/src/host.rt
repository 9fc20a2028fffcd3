//! The calls of a host, on one in memory.
ghost use Rattle.std.specs.Prelude.{◌≡◌, ◌≤◌, false, IfOk, is_some, IsSome, IsSomeAnd, length, OnErr, OnOk, Some};
ghost use Rattle.q_host.specs.Calls.{Creates, Removes, Renames, Stays, Syncs, TellsAll, TellsSome, WritesAll, WritesSome};
ghost use Rattle.q_host.specs.Faults.{DiskCause, TellCause};
ghost use Rattle.q_host.specs.Files.{same_place};
ghost use Rattle.q_host.specs.Reads.{IsListing, IsPart, IsRead, IsSize, Rise};
ghost use Rattle.q_mem_host.specs.Left.{view_of};
ghost use Rattle.q_mem_host.specs.Memo.{ByViews};
ghost use Rattle.q_mem_host.specs.Planned.{IsPlanned};

use crate::MemHost;
use crate::listing::list_names;
use q_host::{Host, HostError};
use q_model::{Area, Name, Names, NoMemory};

// The names after one, as reads see them.
fn names_after(
    host: &MemHost,
    area: Area,
    after: Option<Name>,
    out: &mut Names,
) -> Result<(), NoMemory>
    ensures ok { OnOk result (IsListing ((view_of host.now.history).files area) after out.new) }
    ensures few { OnOk result (length out.new ≤ 64) }
{
    list_names(&host.files, area, after, out)
}

// The bytes of a file that is there.
fn bytes_of(host: &MemHost, area: Area, name: Name) -> &[u8]
    requires { IsSome ((view_of host.now.history).files area name) }
    ensures { (view_of host.now.history).files area name ≡ Some result.now }
{
    host.file(area, name).unwrap_or(&[])
}

// Reads from an offset on into a buffer.
fn read_part(bytes: &[u8], at: u64, buf: &mut [u8]) -> usize
    ensures { IsRead bytes.now at buf.old buf.new result }
{
    let at = at as usize;
    if at >= bytes.len() {
        return 0;
    }
    let count = buf.len().min(bytes.len() - at);
    buf[..count].copy_from_slice(&bytes[at..at + count]);
    count
}

impl Host for MemHost {
    ghost use Rattle.std.specs.Prelude.{true};
    ghost use Rattle.q_mem_host.specs.Left.{view_of};
    ghost use Rattle.q_mem_host.specs.Laws.{mem_counts_now, mem_names_stay, mem_only_now, mem_stays_whole};

    ghost tells = { true };

    ghost view = { λ m. view_of m.history };

    ghost faults = { λ m. m.faults };

    ghost counts_now = { λ m t c le left. mem_counts_now m.history t c le left };

    ghost only_now = { λ m c left. mem_only_now m.history c left };

    ghost told_stays = { λ m c left. left.told };

    ghost names_stay = { λ m c left. mem_names_stay m.history c left };

    ghost stays_whole = { λ m. mem_stays_whole m.history };

    fn list_after(
        &mut self,
        area: Area,
        after: Option<Name>,
        out: &mut Names,
    ) -> Result<(), HostError>
        ensures form { OnOk result (Rise after out.new × (length out.new ≤ 64)) }
        ensures names { OnOk result (IsListing ((view_of self.old.history).files area) after out.new) }
        ensures same { self.new.history ≡ self.old.history }
        ensures planned { IsPlanned HostError.Disk self.old self.new result }
        ensures cause { DiskCause self.old.faults self.new.faults result }
    {
        self.pass()?;
        names_after(self, area, after, out)?;
        Ok(())
    }

    fn has(&mut self, area: Area, name: Name) -> Result<bool, HostError>
        ensures found { IfOk result (λ found. found
            ≡ is_some ((view_of self.old.history).files area name)) }
        ensures same { self.new.history ≡ self.old.history }
        ensures planned { IsPlanned HostError.Disk self.old self.new result }
        ensures cause { DiskCause self.old.faults self.new.faults result }
    {
        self.pass()?;
        Ok(self.file(area, name).is_some())
    }

    fn size(&mut self, area: Area, name: Name) -> Result<u64, HostError>
        requires { IsSome ((view_of self.old.history).files area name) }
        ensures size { IfOk result (IsSize (view_of self.old.history) area name) }
        ensures same { self.new.history ≡ self.old.history }
        ensures planned { IsPlanned HostError.Disk self.old self.new result }
        ensures cause { DiskCause self.old.faults self.new.faults result }
    {
        self.pass()?;
        Ok(bytes_of(self, area, name).len() as u64)
    }

    fn read(&mut self, area: Area, name: Name, at: u64, buf: &mut [u8]) -> Result<usize, HostError>
        requires { IsSome ((view_of self.old.history).files area name) }
        ensures within { IfOk result (λ count. count ≤ length buf.new) }
        ensures bytes { IfOk result (IsPart (view_of self.old.history) area name at buf.old buf.new) }
        ensures same { self.new.history ≡ self.old.history }
        ensures planned { IsPlanned HostError.Disk self.old self.new result }
        ensures cause { DiskCause self.old.faults self.new.faults result }
    {
        self.pass()?;
        Ok(read_part(bytes_of(self, area, name), at, buf))
    }

    fn create(&mut self, area: Area, name: Name) -> Result<(), HostError>
        ensures ok { OnOk result (ByViews (Creates area name) self.old self.new) }
        ensures err { OnErr result (ByViews Stays self.old self.new) }
        ensures planned { IsPlanned HostError.Disk self.old self.new result }
        ensures cause { DiskCause self.old.faults self.new.faults result }
    {
        self.make(area, name)
    }

    fn write_at(&mut self, area: Area, name: Name, at: u64, bytes: &[u8]) -> Result<(), HostError>
        requires { IsSomeAnd ((view_of self.old.history).files area name) (λ file. at ≤ length file) }
        ensures ok { OnOk result (ByViews (WritesAll area name at bytes.now) self.old self.new) }
        ensures err { OnErr result (ByViews (WritesSome area name at bytes.now) self.old self.new) }
        ensures planned { IsPlanned HostError.Disk self.old self.new result }
        ensures cause { DiskCause self.old.faults self.new.faults result }
    {
        self.overwrite(area, name, at, bytes)
    }

    fn sync(&mut self, area: Area, name: Name) -> Result<(), HostError>
        requires { IsSome ((view_of self.old.history).files area name) }
        ensures ok { OnOk result (ByViews (Syncs area name) self.old self.new) }
        ensures err { OnErr result (ByViews Stays self.old self.new) }
        ensures planned { IsPlanned HostError.Disk self.old self.new result }
        ensures cause { DiskCause self.old.faults self.new.faults result }
    {
        self.sync_file(area, name)
    }

    fn rename(&mut self, area: Area, name: Name, to: Area, new: Name) -> Result<(), HostError>
        requires there { IsSome ((view_of self.old.history).files area name) }
        requires differ { same_place area name to new ≡ false }
        ensures ok { OnOk result (ByViews (Renames area name to new) self.old self.new) }
        ensures err { OnErr result (ByViews Stays self.old self.new) }
        ensures planned { IsPlanned HostError.Disk self.old self.new result }
        ensures cause { DiskCause self.old.faults self.new.faults result }
    {
        self.relocate(area, name, to, new)
    }

    fn remove(&mut self, area: Area, name: Name) -> Result<(), HostError>
        requires { IsSome ((view_of self.old.history).files area name) }
        ensures ok { OnOk result (ByViews (Removes area name) self.old self.new) }
        ensures err { OnErr result (ByViews Stays self.old self.new) }
        ensures planned { IsPlanned HostError.Disk self.old self.new result }
        ensures cause { DiskCause self.old.faults self.new.faults result }
    {
        self.discard(area, name)
    }

    fn tell(&mut self, bytes: &[u8]) -> Result<(), HostError>
        ensures ok { OnOk result (ByViews (TellsAll bytes.now) self.old self.new) }
        ensures err { OnErr result (ByViews (TellsSome bytes.now) self.old self.new) }
        ensures planned { IsPlanned HostError.Tell self.old self.new result }
        ensures cause { TellCause self.old.faults self.new.faults result }
    {
        self.say(bytes)
    }
}
