//! One file at a time: its way through the calls, and what is missing.
use crate::fixture::{Spool, System, name};
use q_host::{Host, HostError};
use q_model::Area;
use std::os::unix::fs::symlink;
use std::process::Abort;
use std::test::Fail;

// A file of 12 bytes, written over in part and synced, comes from tmp to incoming. It is synced, and so
// are both folders.
fn comes(abort: &impl Abort, host: &mut Spool<'_>) -> Result<(), Fail> {
    let id = name("00000001-00000001")?;
    let before = host.syncs();
    host.create(Area::Tmp, id)?;
    host.write_at(Area::Tmp, id, 0, b"hullo")?;
    host.write_at(Area::Tmp, id, 1, b"ello, world")?;
    assert_eq!(abort; host.syncs(), before);
    host.sync(Area::Tmp, id)?;
    assert_eq!(abort; host.syncs(), before.saturating_add(1));
    host.rename(Area::Tmp, id, Area::Incoming, id)?;
    assert_eq!(abort; host.syncs(), before.saturating_add(3));
    Ok(())
}

// A sync that the system refuses, as that of a device, is a fault of the disk.
fn asks_the_system(rt: &impl Abort, host: &mut Spool<'_>, system: &System) -> Result<(), Fail> {
    let id = name("00000001-00000003")?;
    let device = format!(in system.rt.alloc(); "{}/incoming/{id}", system.root)?;
    symlink(&system.rt, "/dev/null", device.as_str())?;
    assert_eq!(rt; host.sync(Area::Incoming, id), Err(HostError::Disk));
    Ok(())
}

fn is_read(rt: &impl Abort, host: &mut Spool<'_>) -> Result<(), Fail> {
    let id = name("00000001-00000001")?;
    let mut buf = [b'-'; 8];
    assert!(rt; !host.has(Area::Tmp, id)?);
    assert_eq!(rt; host.size(Area::Incoming, id)?, 12);
    assert_eq!(rt; host.read(Area::Incoming, id, 7, &mut buf)?, 5);
    assert_eq!(rt; buf.as_slice(), b"world---".as_slice());
    assert_eq!(rt; host.read(Area::Incoming, id, 12, &mut buf)?, 0);
    Ok(())
}

// A new file takes its place, and goes: it is synced as it is made, and its folder each time.
fn goes(rt: &impl Abort, host: &mut Spool<'_>) -> Result<(), Fail> {
    let id = name("00000001-00000001")?;
    let before = host.syncs();
    host.create(Area::Incoming, id)?;
    assert_eq!(rt; host.size(Area::Incoming, id)?, 0);
    host.remove(Area::Incoming, id)?;
    assert_eq!(rt; host.syncs(), before.saturating_add(3));
    assert!(rt; !host.has(Area::Incoming, id)?);
    Ok(())
}

// A file that isn't there is a fault of the disk, and none is made.
fn misses(rt: &impl Abort, host: &mut Spool<'_>) -> Result<(), Fail> {
    let id = name("00000001-00000002")?;
    let fault = HostError::Disk;
    let mut buf = [0; 4];
    assert_eq!(rt; host.size(Area::Active, id), Err(fault));
    assert_eq!(rt; host.read(Area::Active, id, 0, &mut buf), Err(fault));
    assert_eq!(rt; host.write_at(Area::Active, id, 0, b"x"), Err(fault));
    assert_eq!(rt; host.sync(Area::Active, id), Err(fault));
    assert_eq!(rt; host.rename(Area::Active, id, Area::Hold, id), Err(fault));
    assert_eq!(rt; host.remove(Area::Active, id), Err(fault));
    assert!(rt; !host.has(Area::Active, id)?);
    Ok(())
}

// Each call to tell is one write, and a closed output is a fault of telling.
fn tells(rt: &impl Abort, host: &mut Spool<'_>, system: &System) -> Result<(), Fail> {
    host.tell(b"life 1\n")?;
    host.tell(b"end\n")?;
    assert_eq!(rt; system.bytes.get(), 11);
    assert_eq!(rt; system.calls.get(), 2);
    system.closed.set(true);
    assert_eq!(rt; host.tell(b"end\n"), Err(HostError::Tell));
    Ok(())
}

fn all_calls(rt: &impl Abort, host: &mut Spool<'_>, system: &System) -> Result<(), Fail> {
    comes(rt, host)?;
    is_read(rt, host)?;
    goes(rt, host)?;
    misses(rt, host)?;
    asks_the_system(rt, host, system)?;
    tells(rt, host, system)
}

#[test]
fn files_and_told_lines(rt: HostRuntime) -> Result<(), Fail> {
    let system = System::new(rt, "spool")?;
    match system.open() {
        Ok(mut host) => all_calls(&rt, &mut host, &system)?,
        Err(_) => panic!(rt; "not opened"),
    }
    system.leave()
}
