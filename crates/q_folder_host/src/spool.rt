//! The folders of a spool, made ready at the first call.
ghost use Rattle.std.specs.Prelude.{◌≤◌, length, OnOk};
ghost use Rattle.q_host.specs.Reads.{Rise};

use crate::access::Access;
use crate::fault::{Call, Fault};
use crate::folders::Folder;
use crate::kept::Kept;
use crate::late::Late;
use crate::names::list_names;
use crate::short::Short;
use crate::system::System;
use q_model::{Area, Name, Names};
use std::alloc::{AllocError, Global};
use std::collections::BTreeSet;
use std::fs::File;
use std::io;
use std::io::ErrorKind;
use std::rt::Files;
use std::time::Clock;

/// The folders of a spool below one root.
#[derive(Drop)]
pub(crate) struct Spool<F: Files<File = File> + Clock + Drop> {
    pub(crate) system: System<F>,
    pub(crate) root: String,
    pub(crate) access: Access,
    pub(crate) is_ready: bool,
    // in the order of the areas
    pub(crate) folders: [Folder; 10],
    // what isn't durable yet
    pub(crate) late: Late,
    // the file of the last calls
    pub(crate) kept: Option<Kept>,
    // the short file that was read last
    pub(crate) short: Short,
    // holds the lock until it is closed
    pub(crate) lock: Option<File>,
    // who had the spool when it was opened to be looked at
    pub(crate) user: Option<Fault>,
}

fn folder(alloc: Global, root: &str, area: Area) -> Result<Folder, AllocError> {
    let path = format!(in alloc; "{root}/{}", area.folder())?;
    Ok(Folder {
        path,
        handle: None,
        seen: None,
        is_listed: false,
        names: BTreeSet::new(alloc),
    })
}

fn all_folders(alloc: Global, root: &str) -> Result<[Folder; 10], AllocError> {
    Ok([
        folder(alloc, root, Area::Boot)?,
        folder(alloc, root, Area::Conf)?,
        folder(alloc, root, Area::Tmp)?,
        folder(alloc, root, Area::Incoming)?,
        folder(alloc, root, Area::Active)?,
        folder(alloc, root, Area::Deferred)?,
        folder(alloc, root, Area::Hold)?,
        folder(alloc, root, Area::Corrupt)?,
        folder(alloc, root, Area::Bounce)?,
        folder(alloc, root, Area::Defer)?,
    ])
}

/// That a call on a file failed.
pub(crate) fn failed(call: Call, area: Area, name: Name, error: io::Error) -> Fault {
    Fault::File {
        call,
        area,
        name,
        error,
    }
}

/// The answer of the system to a call on a file.
pub(crate) fn said<T>(
    call: Call,
    area: Area,
    name: Name,
    answer: io::Result<T>,
) -> Result<T, Fault> {
    answer.map_err(|error| failed(call, area, name, error))
}

impl<F: Files<File = File> + Clock + Drop> Spool<F> {
    /// The folders below a root, which isn't touched yet.
    pub(crate) fn new(
        alloc: Global,
        files: F,
        root: &str,
        access: Access,
    ) -> Result<Self, AllocError> {
        let folders = all_folders(alloc, root)?;
        let root = format!(in alloc; "{root}")?;
        Ok(Spool {
            system: System {
                alloc,
                files,
                syncs: 0,
            },
            root,
            access,
            is_ready: false,
            folders,
            late: Late::new(alloc),
            kept: None,
            short: Short::new(alloc),
            lock: None,
            user: None,
        })
    }

    /// Makes the folders ready, where they aren't.
    pub(crate) fn ready(&mut self) -> Result<(), Fault> {
        if !self.is_ready {
            match self.access {
                Access::Look => self.open_to_look()?,
                Access::Change { wait, .. } => self.open_to_change(wait)?,
            }
            self.is_ready = true;
        }
        Ok(())
    }

    // The path of a file. A name has no slash, so no path leaves its folder.
    pub(crate) fn path(&self, area: Area, name: Name) -> Result<String, AllocError> {
        format!(in self.system.alloc; "{}/{name}", self.folders[area as usize].path)
    }

    // Reads the names of an area, where they aren't known. A folder that isn't there has none for
    // one who looks.
    pub(crate) fn list(&mut self, area: Area) -> Result<(), Fault> {
        let folder = &mut self.folders[area as usize];
        match self.system.list(folder) {
            Ok(()) => Ok(()),
            Err(e) if e.kind() == ErrorKind::OutOfMemory => Err(Fault::NoMemory(AllocError)),
            Err(e) if e.kind() == ErrorKind::NotFound && self.access == Access::Look => Ok(()),
            Err(error) => Err(Fault::Folder { area, error }),
        }
    }

    pub(crate) fn list_after(
        &mut self,
        area: Area,
        after: Option<Name>,
        out: &mut Names,
    ) -> Result<(), Fault>
        ensures form { OnOk result (Rise after out.new) }
        ensures few { OnOk result (length out.new ≤ 64) }
    {
        self.ready()?;
        self.list(area)?;
        let listed = list_names(&self.folders[area as usize].names, &after, out);
        listed.map_err(|_| Fault::NoMemory(AllocError))
    }
}
