//! The host of a load: one in memory, of which no call fails but for want of memory.
//!
//! Its plan is empty and stays so, which a host in memory can't promise of itself. So it counts no
//! fault, and by the causes of refusals none of disk or output comes of what is built on it.
ghost use Rattle.std.specs.Prelude.{◌≡◌};
ghost use Rattle.q_host.specs.View.{now, Remains};
ghost use Rattle.q_mem_host.specs.Left.{nothing, view_of};

use q_host::{Host, HostError};
use q_mem_host::MemHost;
use q_model::{Area, Name, Names};
use std::alloc::Global;
use std::marker::Model;

/// A host in memory without a plan. A contract sees it as what was done to it.
#[derive(Drop)]
pub(crate) struct UnfailingHost {
    host: MemHost,
}

impl Model for UnfailingHost {
    ghost use Rattle.std.specs.Prelude.{◌≡◌, List};
    ghost use Rattle.q_mem_host.specs.Event.{Event};
    ghost use Rattle.q_mem_host.specs.Plans.{no_plan};

    ghost Value = { List Event };

    ghost view = { λ m. m.host.history };

    ghost invariant = { λ m. m.host.plan ≡ no_plan };
}

impl UnfailingHost {
    /// A host with no files, and with nothing told.
    pub(crate) fn new(alloc: Global) -> UnfailingHost
        ensures empty { now (view_of result) ≡ nothing }
        ensures remains { (c : Remains) → (view_of result).may_leave c → c ≡ nothing }
    {
        UnfailingHost {
            host: MemHost::new(alloc),
        }
    }
}

impl Host for UnfailingHost {
    ghost use Rattle.std.specs.Prelude.{true};
    ghost use Rattle.q_load.specs.Unfailing.{no_faults};
    ghost use Rattle.q_mem_host.specs.Left.{view_of};
    ghost use Rattle.q_mem_host.specs.Laws.{mem_counts_now, mem_names_stay, mem_only_now, mem_stays_whole};

    ghost tells = { true };

    ghost view = { view_of };

    ghost faults = { λ h. no_faults };

    ghost counts_now = { mem_counts_now };

    ghost only_now = { mem_only_now };

    ghost told_stays = { λ h c left. left.told };

    ghost names_stay = { mem_names_stay };

    ghost stays_whole = { mem_stays_whole };

    fn list_after(
        &mut self,
        area: Area,
        after: Option<Name>,
        out: &mut Names,
    ) -> Result<(), HostError> {
        self.host.list_after(area, after, out)
    }

    fn has(&mut self, area: Area, name: Name) -> Result<bool, HostError> {
        self.host.has(area, name)
    }

    fn size(&mut self, area: Area, name: Name) -> Result<u64, HostError> {
        self.host.size(area, name)
    }

    fn read(
        &mut self,
        area: Area,
        name: Name,
        at: u64,
        buf: &mut [u8],
    ) -> Result<usize, HostError> {
        self.host.read(area, name, at, buf)
    }

    fn create(&mut self, area: Area, name: Name) -> Result<(), HostError> {
        self.host.create(area, name)
    }

    fn write_at(&mut self, area: Area, name: Name, at: u64, bytes: &[u8]) -> Result<(), HostError> {
        self.host.write_at(area, name, at, bytes)
    }

    fn sync(&mut self, area: Area, name: Name) -> Result<(), HostError> {
        self.host.sync(area, name)
    }

    fn rename(&mut self, area: Area, name: Name, to: Area, new: Name) -> Result<(), HostError> {
        self.host.rename(area, name, to, new)
    }

    fn remove(&mut self, area: Area, name: Name) -> Result<(), HostError> {
        self.host.remove(area, name)
    }

    fn tell(&mut self, bytes: &[u8]) -> Result<(), HostError> {
        self.host.tell(bytes)
    }
}
