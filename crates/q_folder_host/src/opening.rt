//! Making the folders of a spool ready: to be changed, or to be looked at.
use crate::fault::Fault;
use crate::spool::Spool;
use crate::system::System;
use q_model::Area;
use std::fs::{DirBuilder, File, TryLockError};
use std::os::unix::fs::DirBuilderExt;
use std::rt::Files;
use std::time::Clock;
use std::{fs, io};

/// The mode of a folder that is made: it is its owner's alone.
const OWNERS: u32 = 0o700;

impl<F: Files<File = File> + Drop> System<F> {
    // Makes a folder where it is missing, opens it, and makes durable what was done in it, by an
    // earlier process too.
    fn ready(&mut self, path: &str) -> io::Result<File> {
        let mut builder = DirBuilder::new();
        builder.recursive(true).mode(OWNERS);
        builder.create(&self.files, path)?;
        let handle = File::open(&self.files, path)?;
        self.sync(&handle)?;
        Ok(handle)
    }

    // Makes the root where it is missing, and opens it. The folder above a new one is synced, so
    // that it stays.
    fn open_root(&mut self, root: &str) -> io::Result<File> {
        if !fs::exists(&self.files, root)? {
            DirBuilder::new().mode(OWNERS).create(&self.files, root)?;
            let above = format!(in self.alloc; "{root}/..")?;
            self.ready(above.as_str())?;
        }
        File::open(&self.files, root)
    }
}

impl<F: Files<File = File> + Clock + Drop> Spool<F> {
    // Makes the folder of an area ready.
    fn open_folder(&mut self, area: Area) -> Result<(), Fault> {
        let folder = &mut self.folders[area as usize];
        match self.system.ready(folder.path.as_str()) {
            Ok(handle) => {
                folder.handle = Some(handle);
                Ok(())
            }
            Err(error) => Err(Fault::Folder { area, error }),
        }
    }

    // Makes the folders of all areas ready, and the root durable, and says whose the spool is.
    fn open_folders(&mut self, root: &File) -> Result<(), Fault> {
        for area in Area::ALL {
            self.open_folder(area)?;
        }
        self.system.sync(root).map_err(Fault::Root)
    }

    /// Makes the folders ready that are to be changed, and locks the root. Nothing is made in a
    /// folder that is no spool, or of another user.
    pub(crate) fn open_to_change(&mut self, wait: u32) -> Result<(), Fault> {
        let root = self
            .system
            .open_root(self.root.as_str())
            .map_err(Fault::Root)?;
        self.lock_root(&root, wait)?;
        self.judge_root()?;
        self.judge_owners()?;
        self.open_folders(&root)?;
        self.judge_boot()?;
        self.judge_active()?;
        self.name_holder();
        self.lock = Some(root);
        Ok(())
    }

    /// Looks whether the root is a spool, and who has it.
    pub(crate) fn open_to_look(&mut self) -> Result<(), Fault> {
        let root = File::open(&self.system.files, &self.root).map_err(Fault::Root)?;
        self.judge_root()?;
        // The lock is let go of at once: who looks keeps nobody out.
        match root.try_lock_shared() {
            Ok(()) => Ok(()),
            Err(TryLockError::WouldBlock) => {
                self.user = Some(self.holder());
                Ok(())
            }
            Err(TryLockError::Error(e)) => Err(Fault::Root(e)),
        }
    }
}
