//! The calls that read, on folders that may be changed or that are looked at alone.
ghost use Rattle.std.specs.Prelude.{◌≤◌, IfOk, length};

use crate::access::Access;
use crate::fault::{Call, Fault};
use crate::kept::Kept;
use crate::spool::{Spool, failed, said};
use crate::system::read_from;
use q_model::{Area, Name, Spot};
use std::fs::File;
use std::rt::Files;
use std::time::Clock;
use std::{fs, io};

impl<F: Files<File = File> + Clock + Drop> Spool<F> {
    /// Opens the file of a place, unless it is the one of the last calls, and keeps it open.
    pub(crate) fn keep(&mut self, spot: Spot, path: &str, writes: bool) -> io::Result<()> {
        if let Some(kept) = &self.kept {
            if kept.is_of(spot, writes) {
                return Ok(());
            }
        }
        let (file, writes) = self.open(path, writes)?;
        self.kept = Some(Kept { spot, file, writes });
        Ok(())
    }

    // Opens a file, for writing too where it may be: what is read of a message is mostly marked later,
    // or is to be opened for writing before it comes into active.
    fn open(&self, path: &str, writes: bool) -> io::Result<(File, bool)> {
        match self.system.open(path, true) {
            Ok(file) => Ok((file, true)),
            Err(error) if writes => Err(error),
            Err(_) => Ok((self.system.open(path, false)?, false)),
        }
    }

    // The file of the last calls, where it is that of a place.
    fn kept_at(&self, spot: Spot) -> Option<&File> {
        match &self.kept {
            Some(kept) if kept.spot == spot => Some(&kept.file),
            _ => None,
        }
    }

    pub(crate) fn has(&mut self, area: Area, name: Name) -> Result<bool, Fault> {
        self.ready()?;
        let path = self.path(area, name)?;
        if self.access == Access::Look {
            return self.sees_now(area, name, path.as_str());
        }
        let folder = &self.folders[area as usize];
        if folder.is_listed {
            return Ok(folder.names.contains(&name));
        }
        said(
            Call::Find,
            area,
            name,
            fs::exists(&self.system.files, &path),
        )
    }

    // Whether one who looks sees a file. Logs are few, so those that aren't there aren't asked for one
    // by one.
    fn sees_now(&mut self, area: Area, name: Name, path: &str) -> Result<bool, Fault> {
        if matches!(area, Area::Bounce | Area::Defer) {
            self.list(area)?;
            if !self.folders[area as usize].names.contains(&name) {
                return Ok(false);
            }
        }
        self.sees(area, name, path)
    }

    pub(crate) fn size(&mut self, area: Area, name: Name) -> Result<u64, Fault> {
        self.ready()?;
        if let Some(size) = self.short.size(Spot { area, name }) {
            return Ok(size);
        }
        let path = self.path(area, name)?;
        if self.access == Access::Look {
            return self.size_seen(area, name, path.as_str());
        }
        let found = match self.kept_at(Spot { area, name }) {
            Some(file) => file.metadata(),
            None => fs::metadata(&self.system.files, &path),
        };
        said(Call::Size, area, name, found.map(|file| file.len()))
    }

    // Reads from an offset on, by the system's calls.
    fn read_file(&mut self, area: Area, name: Name, at: u64, buf: &mut [u8]) -> Result<usize, Fault>
        ensures within { IfOk result (λ count. count ≤ length buf.new) }
    {
        let path = self.path(area, name)?;
        if self.access == Access::Look {
            return self.read_seen(area, name, path.as_str(), at, buf);
        }
        let spot = Spot { area, name };
        said(
            Call::Read,
            area,
            name,
            self.keep(spot, path.as_str(), false),
        )?;
        match self.kept_at(spot) {
            Some(file) => match read_from(file, at, buf) {
                Ok(count) => Ok(count),
                Err(e) => Err(failed(Call::Read, area, name, e)),
            },
            None => Ok(0),
        }
    }

    /// Reads from an offset on until the buffer is full or the file ends.
    pub(crate) fn read(
        &mut self,
        area: Area,
        name: Name,
        at: u64,
        buf: &mut [u8],
    ) -> Result<usize, Fault>
        ensures within { IfOk result (λ count. count ≤ length buf.new) }
    {
        self.ready()?;
        let spot = Spot { area, name };
        if let Some(count) = self.short.read(spot, at, buf) {
            return Ok(count);
        }
        let count = self.read_file(area, name, at, buf)?;
        if at == 0 && count < buf.len() {
            self.short.know(spot, &buf[..count]);
        }
        Ok(count)
    }
}
