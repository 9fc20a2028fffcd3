//! The folder of an area, with the names that stand in it.
use q_model::Name;
use std::collections::BTreeSet;
use std::fs::File;

/// A file that was opened to be looked at, under the name that it had.
#[derive(Drop)]
pub(crate) struct Seen {
    pub(crate) name: Name,
    pub(crate) file: File,
}

/// The folder of an area: its path, from the first listing on the names that stand in it, and
/// where files may be changed the handle by which it is synced; else the file looked at last.
#[derive(Drop)]
pub(crate) struct Folder {
    pub(crate) path: String,
    pub(crate) handle: Option<File>,
    pub(crate) seen: Option<Seen>,
    pub(crate) is_listed: bool,
    pub(crate) names: BTreeSet<Name>,
}

impl Folder {
    /// A name came, by a call that was done; else it came or not. What isn't known any more, or
    /// finds no memory, is listed anew the next time.
    pub(crate) fn came(&mut self, name: Name, done: bool) {
        self.is_listed = self.is_listed && done && self.names.insert(name).is_ok();
    }

    /// A name left, by a call that was done; else it left or not.
    pub(crate) fn left(&mut self, name: Name, done: bool) {
        self.is_listed = self.is_listed && done;
        self.names.remove(&name);
    }

    /// The file that was looked at last, where it had this name.
    pub(crate) fn seen_as(&self, name: Name) -> Option<&File> {
        match &self.seen {
            Some(seen) if seen.name == name => Some(&seen.file),
            _ => None,
        }
    }
}
