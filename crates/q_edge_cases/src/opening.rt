//! Folders of another user are no spool, nor are those that can't be synced.
use crate::fixture::System;
use std::fs;
use std::os::unix::fs::{chown, symlink};
use std::test::Fail;

/// A user that no process of a test is of.
const OTHER_USER: u32 = 54_321;

// Whether the folders are refused, with a text that begins so.
fn refused(system: &System, begins: &str) -> Result<bool, Fail> {
    match system.open() {
        Ok(_) => Ok(false),
        Err(fault) => {
            let text = format!(in system.rt.alloc(); "{fault}")?;
            Ok(text.as_str().starts_with(begins))
        }
    }
}

// Only root may give a folder away: for others there is nothing to look at.
#[test]
fn folder_of_another_user(rt: HostRuntime) -> Result<(), Fail> {
    let system = System::new(rt, "given-spool")?;
    let incoming = format!(in rt.alloc(); "{}/incoming", system.root)?;
    fs::create_dir(&rt, system.root.as_str())?;
    fs::create_dir(&rt, incoming.as_str())?;
    if chown(&rt, incoming.as_str(), Some(OTHER_USER), None).is_ok() {
        assert!(rt; refused(&system, "incoming belongs to user 54321, ")?);
    }
    system.leave()
}

// A sync of a folder of the system's own processes is no call that there is.
#[test]
fn folder_that_cannot_be_synced(rt: HostRuntime) -> Result<(), Fail> {
    let system = System::new(rt, "unsynced-spool")?;
    let hold = format!(in rt.alloc(); "{}/hold", system.root)?;
    fs::create_dir(&rt, system.root.as_str())?;
    symlink(&rt, "/proc/self/task", hold.as_str())?;
    assert!(rt; refused(&system, "folder hold: ")?);
    system.leave()
}
