//! The lock on the root of a spool (flock(2)), and the file beside the folders that says which
//! process has it. A look takes the lock for a moment, so it is always tried more than once.
use crate::fault::Fault;
use crate::spool::Spool;
use crate::system::read_from;
use std::fs::{File, TryLockError};
use std::os::unix::fs::FileExt;
use std::rt::Files;
use std::time::{Clock, Duration};
use std::{io, thread};

/// The name of the file in the root that has the number of the process.
pub(crate) const LOCK_FILE: &str = "lock";

/// How long a try for the lock waits for the next one, in milliseconds.
const PAUSE_MILLIS: u64 = 50;

/// How many pauses are one second.
const PAUSES: u64 = 20;

/// How many tries are made where nothing is said of a wait.
const LEAST_TRIES: u64 = 3;

// The number that these digits write.
fn number_of(bytes: &[u8]) -> Option<u32> {
    let text = str::from_utf8(bytes).ok()?;
    text.trim().parse().ok()
}

impl<F: Files<File = File> + Clock + Drop> Spool<F> {
    // The number in the file beside the folders.
    fn read_holder(&self) -> io::Result<Option<u32>> {
        let path = format!(in self.system.alloc; "{}/{LOCK_FILE}", self.root)?;
        let file = File::open(&self.system.files, &path)?;
        let mut buf = [0u8; 16];
        let count = read_from(&file, 0, &mut buf)?;
        Ok(buf.get(..count).and_then(number_of))
    }

    /// That another process has the spool, and which.
    pub(crate) fn holder(&self) -> Fault {
        match self.read_holder() {
            Ok(Some(process)) => Fault::InUseBy(process),
            _ => Fault::InUse,
        }
    }

    // Writes the number of this process beside the folders.
    fn write_holder(&self) -> io::Result<()> {
        let path = format!(in self.system.alloc; "{}/{LOCK_FILE}", self.root)?;
        let number = format!(in self.system.alloc; "{}\n", libc::getpid())?;
        let file = File::create(&self.system.files, &path)?;
        file.write_all_at(number.as_bytes(), 0)
    }

    /// Says beside the folders that this process has the spool. Where that can't be written, the
    /// lock holds all the same.
    pub(crate) fn name_holder(&self) {
        let _ = self.write_holder();
    }

    /// Locks the root, until the handle is closed, at the end of the process at the latest. Where
    /// another has it, it is tried again for so many seconds.
    pub(crate) fn lock_root(&self, root: &File, wait: u32) -> Result<(), Fault> {
        let tries = LEAST_TRIES + PAUSES * u64::from(wait);
        for _ in 0..tries {
            match root.try_lock() {
                Ok(()) => return Ok(()),
                Err(TryLockError::WouldBlock) => {}
                Err(TryLockError::Error(e)) => return Err(Fault::Root(e)),
            }
            thread::sleep(&self.system.files, Duration::from_millis(PAUSE_MILLIS));
        }
        Err(self.holder())
    }
}
