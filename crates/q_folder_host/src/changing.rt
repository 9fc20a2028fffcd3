//! The calls that change files and folders, and when folders are synced.
use crate::access::{Access, Syncs};
use crate::fault::{Call, Fault};
use crate::kept::Kept;
use crate::spool::{Spool, failed, said};
use q_model::{Area, Name, Spot};
use std::fs::File;
use std::io::ErrorKind;
use std::os::unix::fs::FileExt;
use std::rt::Files;
use std::time::{Clock, Duration};
use std::{fs, io};

impl<F: Files<File = File> + Clock + Drop> Spool<F> {
    // Makes the folders ready for a call that changes a file, which one who looks refuses.
    fn ready_to(&mut self, call: Call, area: Area, name: Name) -> Result<(), Fault> {
        self.ready()?;
        match self.access {
            Access::Look => {
                let refused = io::Error::from(ErrorKind::ReadOnlyFilesystem);
                said(call, area, name, Err(refused))
            }
            Access::Change { .. } => Ok(()),
        }
    }

    // Whether folders are synced together.
    fn is_grouped(&self) -> bool {
        matches!(
            self.access,
            Access::Change {
                syncs: Syncs::Grouped { .. },
                ..
            }
        )
    }

    fn now(&self) -> Option<Duration> {
        self.system.files.monotonic().ok()
    }

    /// Whether a line that is told now may be kept back. Of a look it may: it says nothing of the disk.
    pub(crate) fn may_keep_lines(&mut self) -> bool {
        let keeps_lines = matches!(
            self.access,
            Access::Look
                | Access::Change {
                    syncs: Syncs::Grouped { keeps_lines: true },
                    ..
                }
        );
        if !keeps_lines {
            return false;
        }
        let now = self.now();
        self.late.wait(now);
        !self.late.is_due(now)
    }

    // Syncs the folder of an area.
    fn sync_folder(&mut self, area: Area) -> Result<(), Fault> {
        let folder = &mut self.folders[area as usize];
        let synced = self.system.sync_folder(folder);
        match synced {
            Ok(()) => Ok(()),
            Err(error) => Err(Fault::Folder { area, error }),
        }
    }

    // Syncs the folders that changed.
    fn sync_folders(&mut self) -> Result<(), Fault> {
        for area in Area::ALL {
            if self.late.is_changed(area) {
                self.sync_folder(area)?;
            }
        }
        Ok(())
    }

    /// Makes durable what was made, renamed and removed. Where some of it couldn't be, nothing is
    /// durable any more.
    pub(crate) fn settle(&mut self) -> Result<(), Fault> {
        if self.late.is_lost {
            return Err(Fault::Lost);
        }
        match self.sync_folders() {
            Ok(()) => {
                self.late.clear();
                Ok(())
            }
            Err(fault) => {
                self.late.is_lost = true;
                Err(fault)
            }
        }
    }

    // The folder of an area changed: it is synced now, or later with others.
    fn change(&mut self, area: Area) -> Result<(), Fault> {
        if !self.is_grouped() {
            return self.sync_folder(area);
        }
        self.late.change(area);
        Ok(())
    }

    // Lets changes wait, unless they have waited long enough. What boot says is durable at once.
    fn let_wait(&mut self, area: Area) -> Result<(), Fault> {
        if !self.is_grouped() {
            return Ok(());
        }
        let now = self.now();
        self.late.wait(now);
        if area == Area::Boot || self.late.is_due(now) {
            return self.settle();
        }
        Ok(())
    }

    // Whether the file of the last calls is that of a place, and is open for writing.
    fn keeps_writable(&self, spot: Spot) -> bool {
        match &self.kept {
            Some(kept) => kept.is_of(spot, true),
            None => false,
        }
    }

    // Forgets the file of the last calls, where it is that of a place.
    fn forget_kept(&mut self, spot: Spot) {
        if let Some(kept) = &self.kept {
            if kept.spot == spot {
                self.kept = None;
            }
        }
    }

    // Forgets that and what was read.
    fn forget(&mut self, spot: Spot) {
        self.short.forget();
        self.forget_kept(spot);
    }

    // An empty file was made. Where another one stood there, its bytes are gone for sure: nothing
    // rests on a file in tmp.
    fn note_made(&mut self, area: Area, name: Name, file: File) -> Result<(), Fault> {
        if area != Area::Tmp {
            if !self.is_grouped() {
                said(Call::Create, area, name, self.system.sync(&file))?;
            }
            self.change(area)?;
            self.let_wait(area)?;
        }
        self.kept = Some(Kept {
            spot: Spot { area, name },
            file,
            writes: true,
        });
        Ok(())
    }

    pub(crate) fn create(&mut self, area: Area, name: Name) -> Result<(), Fault> {
        self.ready_to(Call::Create, area, name)?;
        let path = self.path(area, name)?;
        self.forget(Spot { area, name });
        let made = match self.system.create(path.as_str()) {
            Ok(file) => self.note_made(area, name, file),
            Err(error) => Err(failed(Call::Create, area, name, error)),
        };
        self.folders[area as usize].came(name, made.is_ok());
        made
    }

    // Writes all bytes from an offset on, over what is there. No file is made.
    fn write_over(&mut self, spot: Spot, path: &str, at: u64, bytes: &[u8]) -> io::Result<()> {
        self.short.forget();
        self.keep(spot, path, true)?;
        match &self.kept {
            Some(kept) => kept.file.write_all_at(bytes, at),
            None => Ok(()),
        }
    }

    pub(crate) fn write_at(
        &mut self,
        area: Area,
        name: Name,
        at: u64,
        bytes: &[u8],
    ) -> Result<(), Fault> {
        self.ready_to(Call::Write, area, name)?;
        let path = self.path(area, name)?;
        let spot = Spot { area, name };
        if self.late.holds(spot) {
            self.settle()?;
        }
        let written = self.write_over(spot, path.as_str(), at, bytes);
        said(Call::Write, area, name, written)
    }

    // Makes the bytes of a file durable.
    fn sync_bytes(&mut self, spot: Spot, path: &str) -> io::Result<()> {
        self.keep(spot, path, false)?;
        match &self.kept {
            Some(kept) => self.system.sync_bytes(&kept.file),
            None => Ok(()),
        }
    }

    pub(crate) fn sync(&mut self, area: Area, name: Name) -> Result<(), Fault> {
        self.ready_to(Call::Sync, area, name)?;
        let path = self.path(area, name)?;
        let synced = self.sync_bytes(Spot { area, name }, path.as_str());
        said(Call::Sync, area, name, synced)
    }

    // A file moved. The new folder is synced first: until both are, a crash may leave the file in
    // both, never in none.
    fn note_moved(&mut self, from: Spot, to: Spot) -> Result<(), Fault> {
        if let Some(kept) = &mut self.kept {
            if kept.spot == from {
                kept.spot = to;
            }
        }
        self.short.follow(from, to);
        self.change(to.area)?;
        self.change(from.area)?;
        if self.is_grouped() && !self.late.come(to) {
            return self.settle();
        }
        self.let_wait(to.area)
    }

    pub(crate) fn rename(
        &mut self,
        area: Area,
        name: Name,
        to: Area,
        new: Name,
    ) -> Result<(), Fault> {
        self.ready_to(Call::Rename, area, name)?;
        let path = self.path(area, name)?;
        let onto = self.path(to, new)?;
        let (from, into) = (
            Spot { area, name },
            Spot {
                area: to,
                name: new,
            },
        );
        // What can't be marked isn't delivered.
        if to == Area::Active && !self.keeps_writable(from) {
            self.judge_writable(area, name, path.as_str())?;
        }
        self.forget_kept(into);
        let moved = match fs::rename(&self.system.files, &path, &onto) {
            Ok(()) => self.note_moved(from, into),
            Err(error) => Err(failed(Call::Rename, area, name, error)),
        };
        self.folders[area as usize].left(name, moved.is_ok());
        self.folders[to as usize].came(new, moved.is_ok());
        moved
    }

    // A file is gone.
    fn note_removed(&mut self, area: Area) -> Result<(), Fault> {
        self.change(area)?;
        self.let_wait(area)
    }

    pub(crate) fn remove(&mut self, area: Area, name: Name) -> Result<(), Fault> {
        self.ready_to(Call::Remove, area, name)?;
        let path = self.path(area, name)?;
        self.forget(Spot { area, name });
        let removed = match fs::remove_file(&self.system.files, &path) {
            Ok(()) => self.note_removed(area),
            Err(error) => Err(failed(Call::Remove, area, name, error)),
        };
        self.folders[area as usize].left(name, removed.is_ok());
        removed
    }
}
