//! Files that are looked at while another process may take them away. The one opened last in each
//! folder stays open, so a message that leaves its queue while it is read is read to its end.
ghost use Rattle.std.specs.Prelude.{◌≤◌, length, IfOk};

use crate::fault::{Call, Fault};
use crate::folders::Seen;
use crate::spool::{Spool, failed, said};
use crate::system::read_from;
use q_model::{Area, Name};
use std::fs::File;
use std::io::ErrorKind;
use std::rt::Files;
use std::time::Clock;

impl<F: Files<File = File> + Clock + Drop> Spool<F> {
    /// Opens a file, unless it is the one that was opened last, and says whether it is there.
    pub(crate) fn sees(&mut self, area: Area, name: Name, path: &str) -> Result<bool, Fault> {
        if self.folders[area as usize].seen_as(name).is_some() {
            return Ok(true);
        }
        match File::open(&self.system.files, path) {
            Ok(file) => {
                self.folders[area as usize].seen = Some(Seen { name, file });
                Ok(true)
            }
            Err(e) if e.kind() == ErrorKind::NotFound => Ok(false),
            Err(e) => Err(failed(Call::Read, area, name, e)),
        }
    }

    /// How many bytes a file has; none where it is gone.
    pub(crate) fn size_seen(&mut self, area: Area, name: Name, path: &str) -> Result<u64, Fault> {
        self.sees(area, name, path)?;
        match self.folders[area as usize].seen_as(name) {
            Some(file) => said(
                Call::Size,
                area,
                name,
                file.metadata().map(|file| file.len()),
            ),
            None => Ok(0),
        }
    }

    /// Reads from an offset on; a file that is gone has no bytes.
    pub(crate) fn read_seen(
        &mut self,
        area: Area,
        name: Name,
        path: &str,
        at: u64,
        buf: &mut [u8],
    ) -> Result<usize, Fault>
        ensures within { IfOk result (λ count. count ≤ length buf.new) }
    {
        self.sees(area, name, path)?;
        match self.folders[area as usize].seen_as(name) {
            Some(file) => match read_from(file, at, buf) {
                Ok(count) => Ok(count),
                Err(e) => Err(failed(Call::Read, area, name, e)),
            },
            None => Ok(0),
        }
    }
}
