//! The system's calls on files and folders. Those on bytes go on where a signal interrupts them
//! (EINTR).
ghost use Rattle.std.specs.Prelude.{◌≤◌, length, IfOk};
ghost use Rattle.q_model.specs.FaultCounts.{Rose};

use crate::folders::Folder;
use crate::names::names_of;
use std::alloc::Global;
use std::fs::{File, OpenOptions};
use std::io;
use std::io::ErrorKind;
use std::os::unix::fs::FileExt;
use std::rt::Files;

/// The system, and how often it was asked to sync a file or a folder.
#[derive(Drop)]
pub(crate) struct System<F: Files<File = File> + Drop> {
    pub(crate) alloc: Global,
    pub(crate) files: F,
    pub(crate) syncs: u64,
}

/// Reads from an offset on until the buffer is full or the file ends.
pub(crate) fn read_from(file: &File, at: u64, buf: &mut [u8]) -> io::Result<usize>
    ensures within { IfOk result (λ count. count ≤ length buf.new) }
{
    let mut done = 0;
    for _ in 0..u64::MAX {
        if done >= buf.len() {
            break;
        }
        match file.read_at(&mut buf[done..], at.saturating_add(done as u64)) {
            Ok(0) => break,
            Ok(count) => done += count,
            Err(e) if e.kind() == ErrorKind::Interrupted => {}
            Err(e) => return Err(e),
        }
    }
    Ok(done)
}

impl<F: Files<File = File> + Drop> System<F> {
    /// Makes durable what a file holds, or what was made, renamed and removed in a folder.
    pub(crate) fn sync(&mut self, file: &File) -> io::Result<()>
        ensures { Rose self.old.syncs self.new.syncs }
    {
        self.syncs = self.syncs.saturating_add(1);
        file.sync_all()
    }

    /// Makes durable what was made, renamed and removed in a folder.
    pub(crate) fn sync_folder(&mut self, folder: &Folder) -> io::Result<()> {
        match &folder.handle {
            Some(handle) => self.sync(handle),
            None => Err(io::Error::from(ErrorKind::ReadOnlyFilesystem)),
        }
    }

    /// Makes a file's bytes and its length durable.
    pub(crate) fn sync_bytes(&mut self, file: &File) -> io::Result<()> {
        self.syncs = self.syncs.saturating_add(1);
        file.sync_data()
    }

    /// Opens a file that is there, to be read, or to be written over too.
    pub(crate) fn open(&self, path: &str, writes: bool) -> io::Result<File> {
        OpenOptions::new()
            .read(true)
            .write(writes)
            .open(&self.files, path)
    }

    /// Makes an empty file, in place of any, and opens it.
    pub(crate) fn create(&self, path: &str) -> io::Result<File> {
        let mut how = OpenOptions::new();
        how.read(true).write(true).create(true).truncate(true);
        how.open(&self.files, path)
    }

    /// Reads the names that stand in a folder, where they aren't known.
    pub(crate) fn list(&self, folder: &mut Folder) -> io::Result<()> {
        if !folder.is_listed {
            let mut listing = self.files.open_dir(folder.path.as_str())?;
            folder.names = names_of(self.alloc, &mut listing)?;
            folder.is_listed = true;
        }
        Ok(())
    }
}
