//! A message comes into active only where its file can be written.
use crate::fixture::{System, name};
use q_host::{Host, HostError};
use q_model::Area;
use std::process::Abort;
use std::test::Fail;

fn stays(abort: &impl Abort, system: &System) -> Result<(), Fail> {
    let id = name("00000001-00000001")?;
    let Ok(mut host) = system.open() else {
        panic!(abort; "not opened");
    };
    host.create(Area::Boot, name("00000001")?)?;
    host.create(Area::Incoming, id)?;
    // The file of the last calls stays open for writing: that is another one then.
    host.create(Area::Tmp, id)?;
    system.guarded.set(true);
    let fault = Err(HostError::Disk);
    assert_eq!(abort; host.rename(Area::Incoming, id, Area::Active, id), fault);
    assert!(abort; host.has(Area::Incoming, id)?);
    let said = format!(in system.rt.alloc(); "{}", host.fault().ok_or("no fault")?)?;
    assert!(abort;
        said.as_str()
            .starts_with("open for writing incoming/00000001-00000001: ")
    );
    system.guarded.set(false);
    host.rename(Area::Incoming, id, Area::Active, id)?;
    Ok(())
}

// What an earlier process left in active is asked for before anything is done.
fn is_refused(abort: &impl Abort, system: &System) -> Result<(), Fail> {
    system.guarded.set(true);
    match system.open() {
        Ok(_) => panic!(abort; "opened"),
        Err(fault) => {
            let said = format!(in system.rt.alloc(); "{fault}")?;
            let place = "open for writing active/00000001-00000001: ";
            assert!(abort; said.as_str().starts_with(place));
        }
    }
    Ok(())
}

#[test]
fn what_cannot_be_written_stays(rt: HostRuntime) -> Result<(), Fail> {
    let system = System::new(rt, "guarded-spool")?;
    stays(&rt, &system)?;
    is_refused(&rt, &system)?;
    system.leave()
}
