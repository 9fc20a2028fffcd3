//! Files of queues that a listing passes over, and messages in corrupt.
use crate::running::Host;
use crate::saying::say;
use q_host::{Host as Files, HostError};
use q_message::{MessageError, read_head};
use q_model::{Area, Name, Names, Spot, due_of, id_of};

/// How many names are told.
const MOST: u64 = 5;

/// The queues that a listing walks over.
const QUEUES: [Area; 4] = [Area::Incoming, Area::Active, Area::Deferred, Area::Hold];

/// Whether a name has the form that its queue asks for.
fn is_named(spot: Spot) -> bool {
    match spot.area {
        Area::Deferred => due_of(spot.name).is_some(),
        _ => id_of(spot.name).is_some(),
    }
}

/// Whether a file is there, and no queue file.
fn is_passed_over(host: &mut Host<'_>, spot: Spot) -> Result<bool, HostError> {
    if !is_named(spot) {
        return Ok(true);
    }
    if !host.has(spot.area, spot.name)? {
        return Ok(false);
    }
    Ok(matches!(read_head(host, spot), Err(MessageError::NotAMessage { .. })))
}

/// Goes on along the names of an area, and answers the last of them, where there are more.
fn next_names(
    host: &mut Host<'_>,
    area: Area,
    after: Option<Name>,
    names: &mut Names,
) -> Result<Option<Name>, HostError> {
    host.list_after(area, after, names)?;
    Ok(names.as_slice().last().copied())
}

/// Warns of a file that is passed over, where few were named before, and counts it.
fn warn_of_file(
    rt: HostRuntime,
    host: &mut Host<'_>,
    spot: Spot,
    found: u64,
) -> Result<u64, HostError> {
    if !is_passed_over(host, spot)? {
        return Ok(found);
    }
    if found < MOST {
        let (folder, name) = (spot.area.folder(), spot.name);
        let why = "is no queue file, and is passed over";
        say(rt, format_args!("{folder}/{name} {why}"));
    }
    Ok(found.saturating_add(1))
}

/// Warns of those of these files of a queue that are passed over, and counts them.
fn warn_of_some(
    rt: HostRuntime,
    host: &mut Host<'_>,
    area: Area,
    names: &Names,
    found: u64,
) -> Result<u64, HostError> {
    let mut found = found;
    for name in names.as_slice() {
        let spot = Spot { area, name: *name };
        found = warn_of_file(rt, host, spot, found)?;
    }
    Ok(found)
}

/// Warns of the files of a queue that are passed over.
fn warn_of_queue(rt: HostRuntime, host: &mut Host<'_>, area: Area) -> Result<(), HostError> {
    let mut names = Names::new(rt.alloc())?;
    let mut found: u64 = 0;
    let mut after = None;
    for _ in 0..u64::MAX {
        let Some(last) = next_names(host, area, after, &mut names)? else {
            break;
        };
        found = warn_of_some(rt, host, area, &names, found)?;
        after = Some(last);
    }
    if found > MOST {
        let (folder, others) = (area.folder(), found - MOST);
        say(
            rt,
            format_args!("{folder}: {others} more files are passed over"),
        );
    }
    Ok(())
}

/// How many files stand in corrupt.
fn damaged(rt: HostRuntime, host: &mut Host<'_>) -> Result<u64, HostError> {
    let mut names = Names::new(rt.alloc())?;
    let mut count: u64 = 0;
    let mut after = None;
    for _ in 0..u64::MAX {
        let Some(last) = next_names(host, Area::Corrupt, after, &mut names)? else {
            break;
        };
        count = count.saturating_add(names.len() as u64);
        after = Some(last);
    }
    Ok(count)
}

fn warn_of_all(rt: HostRuntime, host: &mut Host<'_>) -> Result<(), HostError> {
    for area in QUEUES {
        warn_of_queue(rt, host, area)?;
    }
    let count = damaged(rt, host)?;
    if count > 0 {
        say(rt, format_args!("corrupt holds {count} damaged messages"));
    }
    Ok(())
}

/// Warns of files of queues that a listing passes over, and of messages in corrupt.
pub(crate) fn warn_of_files(rt: HostRuntime, host: &mut Host<'_>) {
    let _ = warn_of_all(rt, host);
}
