//! What failed: the call, the place and the system's own words.
use q_model::{Area, Name};
use std::alloc::AllocError;
use std::{fmt, io};
use thiserror::Error;

/// A call on a file or a folder of the spool.
#[derive(Clone, Copy, Debug, PartialEq, Eq)]
pub enum Call {
    List,
    Find,
    Size,
    Read,
    Create,
    OpenForWriting,
    Write,
    Sync,
    Rename,
    Remove,
}

impl fmt::Display for Call {
    fn fmt<W: fmt::Write>(&self, f: &mut fmt::Formatter<W>) -> fmt::Result {
        let word = match self {
            Call::List => "list",
            Call::Find => "look for",
            Call::Size => "size of",
            Call::Read => "read",
            Call::Create => "create",
            Call::OpenForWriting => "open for writing",
            Call::Write => "write",
            Call::Sync => "sync",
            Call::Rename => "rename",
            Call::Remove => "remove",
        };
        f.write_str(word)
    }
}

/// What failed at a host's last fault, in the words of a fault line.
#[derive(Debug, Drop, Error)]
pub enum Fault {
    /// Another process has the spool open. Its number isn't known.
    #[error("the spool is in use")]
    InUse,
    /// The process of this number has the spool open.
    #[error("the spool is in use by process {0}")]
    InUseBy(u32),
    /// The root holds something that no spool has.
    #[error("the folder is no spool, it holds {0}")]
    Foreign(String),
    /// A folder or a file belongs to another user than the process.
    #[error("{place} belongs to user {owner}, and this process is of user {user}")]
    Owner {
        place: String,
        owner: u32,
        user: u32,
    },
    /// A file has an id of a generation that boot doesn't say yet: new messages would get ids that
    /// stand already.
    #[error("boot is behind {}/{name}: make an empty file boot/{generation} or a higher one", area.folder())]
    BootIsBehind {
        area: Area,
        name: Name,
        generation: Name,
    },
    /// The spool's own folder could not be made, opened, locked or synced.
    #[error("spool folder: {0}")]
    Root(io::Error),
    /// The folder of an area could not be made, opened, listed or synced.
    #[error("folder {}: {error}", area.folder())]
    Folder {
        area: Area,
        error: io::Error,
    },
    /// A call on a file failed.
    #[error("{call} {}/{name}: {error}", area.folder())]
    File {
        call: Call,
        area: Area,
        name: Name,
        error: io::Error,
    },
    /// An earlier change of a folder could not be made durable, so nothing is told any more.
    #[error("an earlier change could not be made durable")]
    Lost,
    /// The output could not be written.
    #[error("{0}")]
    Output(io::Error),
    /// Memory ran out.
    #[error("no memory")]
    NoMemory(#[from(alloc)] AllocError),
}
