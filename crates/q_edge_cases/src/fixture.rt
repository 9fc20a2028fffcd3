//! What the tests of the host stand on: the system's files and an output, in a folder of their own.
use q_folder_host::{Access, Fault, FolderHost, Syncs};
use q_model::Name;
use std::alloc::Allocator;
use std::cell::Cell;
use std::fmt::Display;
use std::fs::{File, Metadata, OpenOptions};
use std::io::ErrorKind;
use std::rt::Files;
use std::test::Fail;
use std::time::{Clock, Duration};
use std::{env, fs, io, process};

pub(crate) fn name(text: &str) -> Result<Name, Fail> {
    Ok(Name::new(text.as_bytes()).ok_or("no name")?)
}

/// The system's files, of which none can be opened for writing while they are guarded; and an output
/// that shows how many bytes it was given, and in how many calls, or is closed. Its clock stands still.
#[derive(Drop)]
pub(crate) struct System {
    pub(crate) rt: HostRuntime,
    pub(crate) root: String,
    pub(crate) guarded: Cell<bool>,
    pub(crate) bytes: Cell<usize>,
    pub(crate) calls: Cell<usize>,
    pub(crate) closed: Cell<bool>,
    /// What the clock shows, in milliseconds.
    pub(crate) millis: Cell<u64>,
}

/// A host over both.
pub(crate) type Spool<'a> = FolderHost<&'a System, &'a System>;

impl System {
    /// With the path of a folder that no other process uses.
    pub(crate) fn new(rt: HostRuntime, what: &str) -> Result<System, Fail> {
        let above = env::temp_dir(&rt)?;
        let number = process::id(rt.process());
        Ok(System {
            rt,
            root: format!(in rt.alloc(); "{}/{what}-{number}", above.as_str())?,
            guarded: Cell::new(false),
            bytes: Cell::new(0),
            calls: Cell::new(0),
            closed: Cell::new(false),
            millis: Cell::new(0),
        })
    }

    /// A host that may change the folders.
    pub(crate) fn open(&self) -> Result<Spool<'_>, Fault> {
        FolderHost::open(self.rt.alloc(), self, self, self.root.as_str())
    }

    /// A host that syncs folders together.
    pub(crate) fn grouped(&self) -> Result<Spool<'_>, Fail> {
        let syncs = Syncs::Grouped { keeps_lines: true };
        let access = Access::Change { wait: 0, syncs };
        let alloc = self.rt.alloc();
        Ok(FolderHost::new(alloc, self, self, self.root.as_str(), access)?)
    }

    /// A host that looks at them.
    pub(crate) fn look(&self) -> Result<Spool<'_>, Fail> {
        let alloc = self.rt.alloc();
        Ok(FolderHost::new(alloc, self, self, self.root.as_str(), Access::Look)?)
    }

    /// Takes the folders away.
    pub(crate) fn leave(self) -> Result<(), Fail> {
        Ok(fs::remove_dir_all(&self.rt, self.root.as_str())?)
    }
}

impl Files for System {
    type File = File;

    type Dir = <HostRuntime as Files>::Dir;

    fn open_file(&self, how: &OpenOptions, path: &str) -> io::Result<File> {
        if self.guarded.get() && how.asks_write() {
            return Err(io::Error::from(ErrorKind::PermissionDenied));
        }
        self.rt.open_file(how, path)
    }

    fn open_dir(&self, path: &str) -> io::Result<Self::Dir> {
        self.rt.open_dir(path)
    }

    fn metadata(&self, path: &str) -> io::Result<Metadata> {
        self.rt.metadata(path)
    }

    fn symlink_metadata(&self, path: &str) -> io::Result<Metadata> {
        self.rt.symlink_metadata(path)
    }

    fn copy(&self, from: &str, to: &str) -> io::Result<u64> {
        self.rt.copy(from, to)
    }

    fn rename(&self, from: &str, to: &str) -> io::Result<()> {
        Files::rename(&self.rt, from, to)
    }

    fn remove_file(&self, path: &str) -> io::Result<()> {
        self.rt.remove_file(path)
    }

    fn create_dir(&self, path: &str) -> io::Result<()> {
        self.rt.create_dir(path)
    }

    fn create_dir_with_mode(&self, path: &str, mode: u32) -> io::Result<()> {
        self.rt.create_dir_with_mode(path, mode)
    }

    fn remove_dir(&self, path: &str) -> io::Result<()> {
        self.rt.remove_dir(path)
    }

    fn remove_dir_all<B: Allocator>(&self, alloc: B, path: &str) -> io::Result<()> {
        self.rt.remove_dir_all(alloc, path)
    }
}

impl Clock for System {
    fn monotonic(&self) -> io::Result<Duration> {
        Ok(Duration::from_millis(self.millis.get()))
    }

    fn since_1970(&self) -> io::Result<Duration> {
        self.rt.since_1970()
    }
}

impl Print for System {
    fn print<D: Display + Drop>(&self, _value: D) -> io::Result<()> {
        Err(io::Error::from(io::ErrorKind::Unsupported))
    }

    fn println<D: Display + Drop>(&self, _value: D) -> io::Result<()> {
        Err(io::Error::from(io::ErrorKind::Unsupported))
    }

    fn write_all(&self, bytes: &[u8]) -> io::Result<()> {
        if self.closed.get() {
            return Err(io::Error::from(io::ErrorKind::BrokenPipe));
        }
        self.bytes.set(self.bytes.get().saturating_add(bytes.len()));
        self.calls.set(self.calls.get().saturating_add(1));
        Ok(())
    }
}
