//! A host over one in memory that tells nothing of its content, as a host over the system's files.
//!
//! What a host that tells asks of a call is judged when the call comes: a file that isn't there is
//! answered by want of memory, which is no answer of any case where memory is ample.
ghost use Rattle.std.specs.Prelude.{◌≡◌};
ghost use Rattle.q_host.specs.Files.{same_place};

use q_host::{Host, HostError};
use q_mem_host::{MemHost, Rot};
use q_model::{Area, Name, Names, NoMemory, Spot};
use std::alloc::Global;

#[derive(Drop)]
pub struct SilentHost {
    host: MemHost,
    /// How many calls were made.
    calls: u64,
    /// A file that rots with this call: from there on it reads as if it were empty.
    rotten: Option<Spot>,
    rots_with: u64,
}

impl SilentHost {
    /// A host with no files, and with nothing told.
    pub fn new(alloc: Global) -> SilentHost {
        SilentHost {
            host: MemHost::new(alloc),
            calls: 0,
            rotten: None,
            rots_with: 0,
        }
    }

    /// Puts a synced file at a place, which is no call.
    pub fn put(&mut self, area: Area, name: Name, bytes: &[u8]) -> Result<(), NoMemory> {
        self.host.put_file(area, name, bytes)
    }

    pub fn file(&self, area: Area, name: Name) -> Option<&[u8]> {
        self.host.file(area, name)
    }

    /// What was told. Of no case it is anything but a text.
    pub fn told(&self) -> &str {
        str::from_utf8(self.host.told()).unwrap_or("")
    }

    /// How many calls were made.
    pub fn calls(&self) -> u64 {
        self.calls
    }

    /// After so many further calls every call fails.
    pub fn stop_after(&mut self, calls: u64) {
        self.host.stop_after(calls);
    }

    /// The call of that number from now, counted from 1, fails alone.
    pub fn fail_call(&mut self, call: u64) {
        self.host.fail_call(call);
    }

    /// With the call of that number from now, counted from 1, the file at the spot rots: it reads as
    /// if it were empty.
    pub fn rot(&mut self, call: u64, spot: Spot) {
        self.rots_with = self.calls.saturating_add(call);
        self.rotten = Some(spot);
    }

    fn is_rotten(&self, area: Area, name: Name) -> bool {
        match &self.rotten {
            Some(spot) => {
                self.rots_with <= self.calls && is_same_place(area, name, spot.area, spot.name)
            }
            None => false,
        }
    }

    /// The host after a crash.
    pub fn crash(self, choice: Rot) -> SilentHost {
        SilentHost {
            host: self.host.crash(choice),
            calls: 0,
            rotten: None,
            rots_with: 0,
        }
    }

    fn count(&mut self)
        ensures { self.new.host ≡ self.old.host }
    {
        self.calls = self.calls.saturating_add(1);
    }
}

#[tactic(auto, unfolding(q_host::specs::Files::same_place))]
fn is_same_place(area: Area, name: Name, to: Area, new: Name) -> bool
    ensures { result ≡ same_place area name to new }
{
    area == to && name == new
}

impl Host for SilentHost {
    ghost use Rattle.std.specs.Prelude.{false};
    ghost use Rattle.q_mem_host.specs.Left.{view_of};
    ghost use Rattle.q_mem_host.specs.Laws.{mem_counts_now, mem_names_stay, mem_only_now, mem_stays_whole};

    ghost tells = { false };

    ghost view = { λ m. view_of m.host.history };

    ghost faults = { λ m. m.host.faults };

    ghost counts_now = { λ m t c le left. mem_counts_now m.host.history t c le left };

    ghost only_now = { λ m c left. mem_only_now m.host.history c left };

    ghost told_stays = { λ m c left. left.told };

    ghost names_stay = { λ m c left. mem_names_stay m.host.history c left };

    ghost stays_whole = { λ m. mem_stays_whole m.host.history };

    fn list_after(
        &mut self,
        area: Area,
        after: Option<Name>,
        out: &mut Names,
    ) -> Result<(), HostError> {
        self.count();
        self.host.list_after(area, after, out)
    }

    fn has(&mut self, area: Area, name: Name) -> Result<bool, HostError> {
        self.count();
        self.host.has(area, name)
    }

    fn size(&mut self, area: Area, name: Name) -> Result<u64, HostError> {
        self.count();
        if self.host.file(area, name).is_none() {
            return Err(HostError::NoMemory);
        }
        self.host.size(area, name)
    }

    fn read(
        &mut self,
        area: Area,
        name: Name,
        at: u64,
        buf: &mut [u8],
    ) -> Result<usize, HostError> {
        self.count();
        if self.is_rotten(area, name) {
            return Ok(0);
        }
        if self.host.file(area, name).is_none() {
            return Err(HostError::NoMemory);
        }
        self.host.read(area, name, at, buf)
    }

    fn create(&mut self, area: Area, name: Name) -> Result<(), HostError> {
        self.count();
        self.host.create(area, name)
    }

    fn write_at(&mut self, area: Area, name: Name, at: u64, bytes: &[u8]) -> Result<(), HostError> {
        self.count();
        let Some(file) = self.host.file(area, name) else {
            return Err(HostError::NoMemory);
        };
        if at > file.len() as u64 {
            return Err(HostError::NoMemory);
        }
        self.host.write_at(area, name, at, bytes)
    }

    fn sync(&mut self, area: Area, name: Name) -> Result<(), HostError> {
        self.count();
        if self.host.file(area, name).is_none() {
            return Err(HostError::NoMemory);
        }
        self.host.sync(area, name)
    }

    fn rename(&mut self, area: Area, name: Name, to: Area, new: Name) -> Result<(), HostError> {
        self.count();
        if self.host.file(area, name).is_none() {
            return Err(HostError::NoMemory);
        }
        if is_same_place(area, name, to, new) {
            return Err(HostError::NoMemory);
        }
        self.host.rename(area, name, to, new)
    }

    fn remove(&mut self, area: Area, name: Name) -> Result<(), HostError> {
        self.count();
        if self.host.file(area, name).is_none() {
            return Err(HostError::NoMemory);
        }
        self.host.remove(area, name)
    }

    fn tell(&mut self, bytes: &[u8]) -> Result<(), HostError> {
        self.count();
        self.host.tell(bytes)
    }
}
