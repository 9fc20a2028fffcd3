//! A host that looks beside another: it makes and locks nothing, and passes over what vanishes.
use crate::fixture::{Spool, System, name};
use q_host::{Host, HostError};
use q_model::{Area, Names};
use std::fs;
use std::process::Abort;
use std::test::Fail;

// A file of 12 bytes comes to incoming.
fn come(rt: HostRuntime, root: &str) -> Result<String, Fail> {
    let path = format!(in rt.alloc(); "{root}/incoming/00000001-00000001")?;
    fs::write(&rt, &path, "hello, world")?;
    Ok(path)
}

// A file that was opened is read to its end, also where it is taken away meanwhile.
fn reads_on(
    abort: &impl Abort,
    rt: HostRuntime,
    look: &mut Spool<'_>,
    path: &str,
) -> Result<(), Fail> {
    let id = name("00000001-00000001")?;
    let mut buf = [b'-'; 8];
    assert!(abort; look.has(Area::Incoming, id)?);
    assert_eq!(abort; look.size(Area::Incoming, id)?, 12);
    fs::remove_file(&rt, path)?;
    assert!(abort; look.has(Area::Incoming, id)?);
    assert_eq!(abort; look.read(Area::Incoming, id, 7, &mut buf)?, 5);
    assert_eq!(abort; buf.as_slice(), b"world---".as_slice());
    Ok(())
}

// What is gone reads as an empty file.
fn misses(rt: &impl Abort, look: &mut Spool<'_>) -> Result<(), Fail> {
    let id = name("00000001-00000002")?;
    let mut buf = [0; 4];
    assert!(rt; !look.has(Area::Incoming, id)?);
    assert_eq!(rt; look.size(Area::Incoming, id)?, 0);
    assert_eq!(rt; look.read(Area::Incoming, id, 0, &mut buf)?, 0);
    Ok(())
}

// A call that changes something is refused, and changes nothing.
fn changes_nothing(rt: &impl Abort, look: &mut Spool<'_>, names: &mut Names) -> Result<(), Fail> {
    let id = name("00000001-00000002")?;
    let fault = Err(HostError::Disk);
    assert_eq!(rt; look.create(Area::Hold, id), fault);
    assert_eq!(rt; look.write_at(Area::Hold, id, 0, b"x"), fault);
    assert_eq!(rt; look.rename(Area::Incoming, id, Area::Hold, id), fault);
    assert_eq!(rt; look.remove(Area::Hold, id), fault);
    look.list_after(Area::Hold, None, names)?;
    assert_eq!(rt; names.len(), 0);
    Ok(())
}

#[test]
fn looks_beside_another(rt: HostRuntime) -> Result<(), Fail> {
    let system = System::new(rt, "looked-spool")?;
    match system.open() {
        Ok(_host) => {
            let path = come(rt, system.root.as_str())?;
            let mut look = system.look()?;
            let mut names = Names::new(rt.alloc())?;
            reads_on(&rt, rt, &mut look, path.as_str())?;
            misses(&rt, &mut look)?;
            changes_nothing(&rt, &mut look, &mut names)?;
            assert!(rt; look.user().is_some());
        }
        Err(_) => panic!(rt; "not opened"),
    }
    system.leave()
}
