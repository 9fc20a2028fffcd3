//! All that stands on a spool in memory, and all that was told there.
use crate::flaw::Flaw;
use crate::places::QUEUES;
use q_host::Host;
use q_model::{Area, Names, Spot};
use q_silent_host::SilentHost;
use std::alloc::Global;

/// A file of a spool.
#[derive(Drop, PartialEq, Eq)]
pub(crate) struct StoredFile {
    pub(crate) spot: Spot,
    pub(crate) bytes: Vec<u8>,
}

/// What a crash has left of a spool, so that all that comes depends on it alone, and what was told
/// up to then.
#[derive(Drop, PartialEq, Eq)]
pub(crate) struct Snapshot {
    pub(crate) files: Vec<StoredFile>,
    pub(crate) told: String,
}

fn add_files(
    alloc: Global,
    files: &mut Vec<StoredFile>,
    host: &mut SilentHost,
    area: Area,
) -> Result<(), Flaw> {
    let mut names = Names::new(alloc)?;
    if host.list_after(area, None, &mut names).is_err() {
        return Err(Flaw::NoStep("a spool that can't be listed"));
    }
    for name in names.as_slice() {
        let spot = Spot { area, name: *name };
        let bytes = Vec::from_slice(alloc, host.file(area, *name).unwrap_or(&[]))?;
        files.push(StoredFile { spot, bytes })?;
    }
    Ok(())
}

/// The lines by which a file of a queue came there; none for another file.
fn arrival(alloc: Global, spot: Spot) -> Result<String, Flaw> {
    let name = format!(in alloc; "{}", spot.name)?;
    if !QUEUES.contains(&spot.area) {
        return Ok(String::new(alloc));
    }
    if spot.area != Area::Deferred {
        return Ok(format!(in alloc; "arrive {name}\n")?);
    }
    match name.split_once('-') {
        Some((due, id)) => Ok(format!(in alloc; "arrive {id}\ndefer {id} {due}\n")?),
        None => Err(Flaw::NoStep("no name of a deferred file")),
    }
}

impl Snapshot {
    /// What stands there, and as what was told the lines by which its messages came.
    pub(crate) fn with_arrivals(alloc: Global, host: &mut SilentHost) -> Result<Snapshot, Flaw> {
        let mut spool = Snapshot::of(alloc, host, "")?;
        let mut told = String::new(alloc);
        for file in &spool.files {
            let lines = arrival(alloc, file.spot)?;
            told = format!(in alloc; "{told}{lines}")?;
        }
        spool.told = told;
        Ok(spool)
    }

    /// What stands there, of at most 64 files an area, and all that was told: this before, and that of
    /// the host.
    pub(crate) fn of(alloc: Global, host: &mut SilentHost, told: &str) -> Result<Snapshot, Flaw> {
        let mut files = Vec::new(alloc);
        for area in Area::ALL {
            add_files(alloc, &mut files, host, area)?;
        }
        let told = format!(in alloc; "{told}{}", host.told())?;
        Ok(Snapshot { files, told })
    }

    /// A host with these files, all of them synced, on which nothing was told.
    pub(crate) fn host(&self, alloc: Global) -> Result<SilentHost, Flaw> {
        let mut host = SilentHost::new(alloc);
        for file in &self.files {
            host.put(file.spot.area, file.spot.name, file.bytes.as_slice())?;
        }
        Ok(host)
    }
}
