//! The calls of a host, on folders and an output.
ghost use Rattle.std.specs.Prelude.{◌≡◌, IfOk, IsErrOf, Ok};
ghost use Rattle.q_host.specs.Faults.{DiskCause};
ghost use Rattle.q_host.specs.declared.error.HostError.TheVariants.{NoMemory};

use crate::access::{Access, Syncs};
use crate::fault::Fault;
use crate::spool::Spool;
use q_host::{Host, HostError};
use q_model::{Area, Name, Names};
use std::alloc::{AllocError, Global};
use std::fs::File;
use std::rt::Files;
use std::time::Clock;

/// How many bytes of lines are kept back.
const MOST_KEPT: usize = 65_536;

// Writes lines that stand on the disk.
fn write<P: Print>(output: &P, bytes: &[u8]) -> Result<(), Fault> {
    if bytes.is_empty() {
        return Ok(());
    }
    output.write_all(bytes).map_err(Fault::Output)
}

// Makes durable what these lines say, and writes them behind those that were kept back, of which none
// is written twice.
fn leave<F: Files<File = File> + Clock + Drop, P: Print>(
    spool: &mut Spool<F>,
    output: &P,
    told: &mut Vec<u8>,
    bytes: &[u8],
) -> Result<(), Fault> {
    spool.settle()?;
    let written = write(output, told.as_slice());
    told.clear();
    written?;
    write(output, bytes)
}

// Keeps lines back, or writes them.
fn pass_on<F: Files<File = File> + Clock + Drop, P: Print>(
    spool: &mut Spool<F>,
    output: &P,
    told: &mut Vec<u8>,
    bytes: &[u8],
) -> Result<(), Fault> {
    let fits = bytes.len() <= MOST_KEPT.saturating_sub(told.len());
    if fits && spool.may_keep_lines() && told.extend_from_slice(bytes).is_ok() {
        return Ok(());
    }
    leave(spool, output, told, bytes)
}

/// The folders of a spool below one root, made ready at the first call that needs them, and an
/// output; and how often each has failed, which stops at 2^64 - 1. A call that answers `Disk` or
/// `Tell` counts one fault, and keeps what it was.
#[derive(Drop)]
pub struct FolderHost<F: Files<File = File> + Clock + Drop, P: Print + Drop> {
    spool: Spool<F>,
    output: P,
    // lines that were told and aren't written yet
    told: Vec<u8>,
    fault: Option<Fault>,
    disk_faults: u64,
    tell_faults: u64,
}

impl<F: Files<File = File> + Clock + Drop, P: Print + Drop> FolderHost<F, P> {
    /// A host over the folders below a root. Nothing is touched before its first call on a file.
    pub fn new(
        alloc: Global,
        files: F,
        output: P,
        root: &str,
        access: Access,
    ) -> Result<Self, AllocError> {
        Ok(FolderHost {
            spool: Spool::new(alloc, files, root, access)?,
            output,
            told: Vec::new(alloc),
            fault: None,
            disk_faults: 0,
            tell_faults: 0,
        })
    }

    /// A host that may change the folders below a root, which are ready. What is missing of them is
    /// made, the root too, for their owner alone; the folder above it has to be there. Where another
    /// process has them, it isn't waited for.
    pub fn open(alloc: Global, files: F, output: P, root: &str) -> Result<Self, Fault> {
        let access = Access::Change {
            wait: 0,
            syncs: Syncs::Each,
        };
        let mut host = FolderHost::new(alloc, files, output, root, access)?;
        host.spool.ready()?;
        Ok(host)
    }

    /// What the last fault was.
    pub fn fault(&self) -> Option<&Fault> {
        self.fault.as_ref()
    }

    /// Which process had the spool when it was first looked at, as the fault that it would be to
    /// one who changes it.
    pub fn user(&self) -> Option<&Fault> {
        self.spool.user.as_ref()
    }

    /// How often the system was asked to sync a file or a folder (fsync(2), fdatasync(2)), while
    /// the folders were made ready too. It stops at 2^64 - 1.
    pub fn syncs(&self) -> u64 {
        self.spool.system.syncs
    }

    /// Makes durable what was done, and writes the lines that were kept back. It is to be called at the
    /// end: what wasn't written is told by nobody. A fault is kept as one of telling.
    pub fn flush(&mut self) -> Result<(), HostError> {
        match leave(&mut self.spool, &self.output, &mut self.told, b"") {
            Ok(()) => Ok(()),
            Err(fault) => {
                self.fault = Some(fault);
                self.tell_faults = self.tell_faults.saturating_add(1);
                Err(HostError::Tell)
            }
        }
    }

    // The answer of the folders, with its fault counted and kept.
    fn counted<T>(&mut self, answer: Result<T, Fault>) -> Result<T, HostError>
        ensures tell { self.new.tell_faults ≡ self.old.tell_faults }
        ensures ok { IfOk result (λ value. answer ≡ Ok value) }
        ensures memory { IsErrOf result NoMemory → self.new.disk_faults ≡ self.old.disk_faults }
        ensures cause { DiskCause (record { disk = self.old.disk_faults; tell = self.old.tell_faults })
            (record { disk = self.new.disk_faults; tell = self.new.tell_faults }) result }
    {
        match answer {
            Ok(value) => Ok(value),
            Err(Fault::NoMemory(_)) => Err(HostError::NoMemory),
            Err(fault) => {
                self.fault = Some(fault);
                self.disk_faults = self.disk_faults.saturating_add(1);
                Err(HostError::Disk)
            }
        }
    }
}

impl<F: Files<File = File> + Clock + Drop, P: Print + Drop> Host for FolderHost<F, P> {
    ghost use Rattle.std.specs.Prelude.{false, is_some};
    ghost use Rattle.std.proofs.Common.{ap, refl};
    ghost use Rattle.q_host.specs.View.{Remains};
    ghost use Rattle.q_folder_host.specs.Silent.{silent};

    ghost tells = { false };

    ghost view = { λ _. silent };

    ghost faults = { λ h. record { disk = h.disk_faults; tell = h.tell_faults } };

    ghost counts_now = { λ _ _ _ _ left. left };

    ghost only_now = { λ _ _ left. left };

    ghost told_stays = { λ _ _ left. ap (λ (c : Remains). c.told) left };

    ghost names_stay = { λ _ _ left a n. ap (λ (c : Remains). is_some (c.files a n)) left };

    ghost stays_whole = { λ _. refl };

    fn list_after(
        &mut self,
        area: Area,
        after: Option<Name>,
        out: &mut Names,
    ) -> Result<(), HostError> {
        let listed = self.spool.list_after(area, after, out);
        self.counted(listed)
    }

    fn has(&mut self, area: Area, name: Name) -> Result<bool, HostError> {
        let found = self.spool.has(area, name);
        self.counted(found)
    }

    fn size(&mut self, area: Area, name: Name) -> Result<u64, HostError> {
        let size = self.spool.size(area, name);
        self.counted(size)
    }

    fn read(
        &mut self,
        area: Area,
        name: Name,
        at: u64,
        buf: &mut [u8],
    ) -> Result<usize, HostError> {
        let count = self.spool.read(area, name, at, buf);
        self.counted(count)
    }

    fn create(&mut self, area: Area, name: Name) -> Result<(), HostError> {
        let made = self.spool.create(area, name);
        self.counted(made)
    }

    fn write_at(&mut self, area: Area, name: Name, at: u64, bytes: &[u8]) -> Result<(), HostError> {
        let written = self.spool.write_at(area, name, at, bytes);
        self.counted(written)
    }

    fn sync(&mut self, area: Area, name: Name) -> Result<(), HostError> {
        let synced = self.spool.sync(area, name);
        self.counted(synced)
    }

    fn rename(&mut self, area: Area, name: Name, to: Area, new: Name) -> Result<(), HostError> {
        let moved = self.spool.rename(area, name, to, new);
        self.counted(moved)
    }

    fn remove(&mut self, area: Area, name: Name) -> Result<(), HostError> {
        let removed = self.spool.remove(area, name);
        self.counted(removed)
    }

    fn tell(&mut self, bytes: &[u8]) -> Result<(), HostError> {
        match pass_on(&mut self.spool, &self.output, &mut self.told, bytes) {
            Ok(()) => Ok(()),
            Err(fault) => {
                self.fault = Some(fault);
                self.tell_faults = self.tell_faults.saturating_add(1);
                Err(HostError::Tell)
            }
        }
    }
}
