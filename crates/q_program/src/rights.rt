//! Files of a spool that this process can't read, or can't write.
use crate::running::Host;
use crate::saying::say;
use q_host::{Host as Files, HostError};
use q_model::{Area, Name, Names};
use std::fs;
use std::fs::OpenOptions;
use std::io::ErrorKind;

/// The folders whose files lives read; those of conf they don't write.
const READ: [Area; 8] = [
    Area::Conf,
    Area::Incoming,
    Area::Active,
    Area::Deferred,
    Area::Hold,
    Area::Corrupt,
    Area::Bounce,
    Area::Defer,
];

/// Says why a file can't be opened as lives do. One that is gone meanwhile is no fault.
fn warn_of_file(rt: HostRuntime, folder: &str, area: Area, name: Name) {
    let inner = area.folder();
    let Ok(path) = format!(in rt.alloc(); "{folder}/{inner}/{name}") else {
        return;
    };
    let is_file = fs::metadata(&rt, path.as_str()).is_ok_and(|found| found.is_file());
    if !is_file {
        return;
    }
    let mut options = OpenOptions::new();
    options.read(true);
    options.write(area != Area::Conf);
    match options.open(&rt, path.as_str()) {
        Err(error) if error.kind() != ErrorKind::NotFound => {
            say(rt, format_args!("{inner}/{name} can't be opened: {error}"));
        }
        _ => {}
    }
}

/// The same of all files of an area.
fn warn_of_area(
    rt: HostRuntime,
    host: &mut Host<'_>,
    folder: &str,
    area: Area,
) -> Result<(), HostError> {
    let mut names = Names::new(rt.alloc())?;
    let mut after = None;
    for _ in 0..u64::MAX {
        host.list_after(area, after, &mut names)?;
        let Some(last) = names.as_slice().last().copied() else {
            break;
        };
        for name in names.as_slice() {
            warn_of_file(rt, folder, area, *name);
        }
        after = Some(last);
    }
    Ok(())
}

fn warn_of_all(rt: HostRuntime, host: &mut Host<'_>, folder: &str) -> Result<(), HostError> {
    for area in READ {
        warn_of_area(rt, host, folder, area)?;
    }
    Ok(())
}

/// Warns of files of a spool that can't be read, or written.
pub(crate) fn warn_of_rights(rt: HostRuntime, host: &mut Host<'_>, folder: &str) {
    let _ = warn_of_all(rt, host, folder);
}
