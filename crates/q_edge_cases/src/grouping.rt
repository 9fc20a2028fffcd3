//! Folders that are synced together, and what waits for that.
use crate::fixture::{Spool, System, name};
use q_host::Host;
use q_model::Area;
use std::process::Abort;
use std::test::Fail;

// A file comes from tmp to a place.
fn store(host: &mut Spool<'_>, area: Area, text: &str) -> Result<(), Fail> {
    let id = name(text)?;
    host.create(Area::Tmp, id)?;
    host.write_at(Area::Tmp, id, 0, b"hello")?;
    host.sync(Area::Tmp, id)?;
    host.rename(Area::Tmp, id, area, id)?;
    Ok(())
}

// How many syncs a mark takes.
fn marked(host: &mut Spool<'_>, text: &str) -> Result<u64, Fail> {
    let before = host.syncs();
    host.write_at(Area::Active, name(text)?, 0, b"H")?;
    host.sync(Area::Active, name(text)?)?;
    Ok(host.syncs().saturating_sub(before))
}

// What boot says is durable at once; a message that comes in takes the sync of its file alone.
fn comes(abort: &impl Abort, host: &mut Spool<'_>) -> Result<(), Fail> {
    host.has(Area::Boot, name("00000001")?)?;
    let before = host.syncs();
    host.create(Area::Boot, name("00000001")?)?;
    assert_eq!(abort; host.syncs(), before.saturating_add(1));
    store(host, Area::Incoming, "00000001-00000001")?;
    store(host, Area::Incoming, "00000001-00000002")?;
    assert_eq!(abort; host.syncs(), before.saturating_add(3));
    Ok(())
}

// A line leaves once it has waited long enough, behind a sync of each folder that changed: tmp and
// incoming.
fn tells(abort: &impl Abort, host: &mut Spool<'_>, system: &System) -> Result<(), Fail> {
    let before = host.syncs();
    system.millis.set(49);
    host.tell(b"one\n")?;
    assert_eq!(abort; (system.bytes.get(), host.syncs()), (0, before));
    system.millis.set(50);
    host.tell(b"two\n")?;
    assert_eq!(abort;
        (system.bytes.get(), host.syncs()),
        (8, before.saturating_add(2))
    );
    host.tell(b"three\n")?;
    assert_eq!(abort; system.bytes.get(), 8);
    host.flush()?;
    assert_eq!(abort;
        (system.bytes.get(), host.syncs()),
        (14, before.saturating_add(2))
    );
    Ok(())
}

// The first mark of messages that came to active waits until that is durable; so does one behind a
// log that came.
fn marks(abort: &impl Abort, host: &mut Spool<'_>) -> Result<(), Fail> {
    for text in ["00000001-00000001", "00000001-00000002"] {
        host.rename(Area::Incoming, name(text)?, Area::Active, name(text)?)?;
    }
    assert_eq!(abort; marked(host, "00000001-00000001")?, 3);
    assert_eq!(abort; marked(host, "00000001-00000002")?, 1);
    store(host, Area::Bounce, "00000001-00000002")?;
    assert_eq!(abort; marked(host, "00000001-00000002")?, 3);
    Ok(())
}

#[test]
fn folders_together(rt: HostRuntime) -> Result<(), Fail> {
    let system = System::new(rt, "grouped-spool")?;
    let mut host = system.grouped()?;
    comes(&rt, &mut host)?;
    tells(&rt, &mut host, &system)?;
    marks(&rt, &mut host)?;
    drop(host);
    system.leave()
}
