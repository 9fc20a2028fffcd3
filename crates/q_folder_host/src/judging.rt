//! What keeps a folder from being a spool that may be changed, looked for before anything is.
use crate::fault::{Call, Fault};
use crate::locking::LOCK_FILE;
use crate::spool::{Spool, failed};
use q_model::{Area, Name, due_of, id_name, id_of};
use std::alloc::{AllocError, Global};
use std::fs::File;
use std::io::Read;
use std::os::unix::fs::MetadataExt;
use std::rt::Files;
use std::time::Clock;
use std::{fs, io};

/// How many digits a generation has.
const DIGITS: usize = 8;

/// How many bytes stand before the id in a name of deferred.
const DUE_LEN: usize = 13;

// Whether an entry of the root is one of a spool; a file system has lost+found of its own.
fn is_of_a_spool(name: &[u8]) -> bool {
    matches!(name, b"" | b"." | b".." | b"lost+found")
        || name == LOCK_FILE.as_bytes()
        || Area::ALL
            .iter()
            .any(|area| area.folder().as_bytes() == name)
}

// The least of the names in a listing that no spool has, empty where there is none.
fn least_foreign(alloc: Global, listing: &[u8]) -> Result<Vec<u8>, AllocError> {
    let mut least = Vec::new(alloc);
    for name in listing.split(|byte| *byte == 0) {
        let is_less = least.is_empty() || name < least.as_slice();
        if is_less && !is_of_a_spool(name) {
            least.clear();
            least.extend_from_slice(name)?;
        }
    }
    Ok(least)
}

// The generation that the id in a file's name says, in the spelling of boot.
fn generation_in(area: Area, name: Name) -> Option<Name> {
    let id = match area {
        Area::Boot | Area::Conf => return None,
        Area::Deferred => due_of(name)?.1,
        _ => id_of(name)?,
    };
    Name::new(id_name(id).bytes().get(..DIGITS)?)
}

// A file, and the generation of its id.
#[derive(Clone, Copy)]
struct Newest {
    generation: Name,
    area: Area,
    name: Name,
}

fn newest_of(area: Area, name: Name) -> Option<Newest> {
    Some(Newest {
        generation: generation_in(area, name)?,
        area,
        name,
    })
}

// Whether a name, if it is an id's, has a greater generation. The digits are compared as they stand,
// so that of many names few are read.
fn may_be_newer(area: Area, name: &Name, newest: &Option<Newest>) -> bool {
    let at = match area {
        Area::Deferred => DUE_LEN,
        _ => 0,
    };
    match (name.bytes().get(at..at + DIGITS), newest) {
        (Some(digits), Some(newest)) => digits > newest.generation.bytes(),
        (digits, _) => digits.is_some(),
    }
}

// Whether a name of boot is a generation.
fn is_generation(name: &Name) -> bool {
    let bytes = name.bytes();
    bytes.len() == DIGITS && bytes.iter().all(|b| matches!(b, b'0'..=b'9' | b'a'..=b'f'))
}

impl<F: Files<File = File> + Clock + Drop> Spool<F> {
    // The least name in the root that no spool has, empty where there is none.
    fn foreign_name(&self) -> io::Result<Vec<u8>> {
        let mut names = Vec::new(self.system.alloc);
        let mut listing = self.system.files.open_dir(self.root.as_str())?;
        listing.read_to_end(&mut names)?;
        Ok(least_foreign(self.system.alloc, names.as_slice())?)
    }

    /// Looks whether the root holds something that no spool has.
    pub(crate) fn judge_root(&self) -> Result<(), Fault> {
        let foreign = self.foreign_name().map_err(Fault::Root)?;
        if foreign.is_empty() {
            return Ok(());
        }
        let shown = foreign.escape_ascii();
        Err(Fault::Foreign(format!(in self.system.alloc; "{shown}")?))
    }

    // Looks whether a folder or a file belongs to another user than the process.
    fn judge_owner(&self, path: &str, place: &str) -> Result<(), Fault> {
        let user = libc::geteuid();
        match fs::metadata(&self.system.files, path) {
            Ok(found) if found.uid() != user => Err(Fault::Owner {
                place: format!(in self.system.alloc; "{place}")?,
                owner: found.uid(),
                user,
            }),
            _ => Ok(()),
        }
    }

    /// Looks whether the root, or a folder that is there, belongs to another user than the process.
    /// Conf may: an operator writes there.
    pub(crate) fn judge_owners(&self) -> Result<(), Fault> {
        self.judge_owner(self.root.as_str(), "the spool")?;
        for area in Area::ALL {
            if area != Area::Conf {
                let path = self.folders[area as usize].path.as_str();
                self.judge_owner(path, area.folder())?;
            }
        }
        Ok(())
    }

    /// Looks whether a file of a queue can be written.
    pub(crate) fn judge_writable(&self, area: Area, name: Name, path: &str) -> Result<(), Fault> {
        match self.system.open(path, true) {
            Ok(_) => Ok(()),
            Err(e) => {
                let place = format!(in self.system.alloc; "{}/{name}", area.folder())?;
                self.judge_owner(path, place.as_str())?;
                Err(failed(Call::OpenForWriting, area, name, e))
            }
        }
    }

    /// Looks whether the messages that an earlier process left in active can be written.
    pub(crate) fn judge_active(&self) -> Result<(), Fault> {
        for name in self.folders[Area::Active as usize].names.iter() {
            let path = self.path(Area::Active, *name)?;
            self.judge_writable(Area::Active, *name, path.as_str())?;
        }
        Ok(())
    }

    // The greatest generation that boot says.
    fn generation_in_boot(&self) -> Option<Name> {
        let names = &self.folders[Area::Boot as usize].names;
        names
            .iter()
            .filter(|name| is_generation(name))
            .copied()
            .max()
    }

    // The file of an area whose id has the greatest generation.
    fn newest(&self, area: Area) -> Option<Newest> {
        let mut newest = None;
        for name in self.folders[area as usize].names.iter() {
            if may_be_newer(area, name, &newest) {
                newest = newest_of(area, *name).or(newest);
            }
        }
        newest
    }

    // The file of all areas whose id has the greatest generation.
    fn newest_of_all(&self) -> Option<Newest> {
        let newest = Area::ALL.iter().filter_map(|area| self.newest(*area));
        newest.max_by_key(|newest| newest.generation)
    }

    /// Lists all folders, and looks whether boot is behind an id.
    pub(crate) fn judge_boot(&mut self) -> Result<(), Fault> {
        for area in Area::ALL {
            self.list(area)?;
        }
        let boot = self.generation_in_boot();
        match self.newest_of_all() {
            Some(newest) if Some(newest.generation) > boot => Err(Fault::BootIsBehind {
                area: newest.area,
                name: newest.name,
                generation: newest.generation,
            }),
            _ => Ok(()),
        }
    }
}
