//! The names of an area, in order and 64 at a time.
use crate::fixture::{Spool, System, name};
use q_host::Host;
use q_model::{Area, Names};
use std::alloc::Global;
use std::fs;
use std::process::Abort;
use std::test::Fail;

// Makes 70 files, the last of them first.
fn fill(alloc: Global, host: &mut Spool<'_>) -> Result<(), Fail> {
    for i in (0..70).rev() {
        let text = format!(in alloc; "{i:02}")?;
        host.create(Area::Deferred, name(text.as_str())?)?;
    }
    Ok(())
}

// Files whose names have no name's form.
fn add_others(rt: HostRuntime, root: &str) -> Result<(), Fail> {
    for text in ["A", "6.", "0_"] {
        let path = format!(in rt.alloc(); "{root}/deferred/{text}")?;
        fs::write(&rt, path.as_str(), "x")?;
    }
    Ok(())
}

// How many names stand after one, and the first of them.
fn listed(
    rt: &impl Abort,
    host: &mut Spool<'_>,
    names: &mut Names,
    after: &str,
    count: usize,
    first: &str,
) -> Result<(), Fail> {
    host.list_after(Area::Deferred, Some(name(after)?), names)?;
    assert_eq!(rt; names.len(), count, "after {after}");
    assert!(rt;
        names.as_slice().first() == Some(&name(first)?),
        "after {after}"
    );
    Ok(())
}

// What the host itself changes is seen.
fn change(host: &mut Spool<'_>) -> Result<(), Fail> {
    host.remove(Area::Deferred, name("64")?)?;
    host.rename(Area::Deferred, name("65")?, Area::Active, name("65")?)?;
    host.rename(Area::Active, name("65")?, Area::Deferred, name("7")?)?;
    host.create(Area::Deferred, name("6a")?)?;
    Ok(())
}

fn all_lists(rt: &impl Abort, alloc: Global, host: &mut Spool<'_>) -> Result<(), Fail> {
    let mut names = Names::new(alloc)?;
    fill(alloc, host)?;
    listed(rt, host, &mut names, "-", 64, "00")?;
    listed(rt, host, &mut names, "63", 6, "64")?;
    change(host)?;
    listed(rt, host, &mut names, "63", 6, "66")?;
    listed(rt, host, &mut names, "69", 2, "6a")?;
    host.list_after(Area::Deferred, Some(name("7")?), &mut names)?;
    assert_eq!(rt; names.len(), 0);
    host.list_after(Area::Deferred, None, &mut names)?;
    assert_eq!(rt; names.len(), 64);
    Ok(())
}

#[test]
fn names_in_order(rt: HostRuntime) -> Result<(), Fail> {
    let system = System::new(rt, "listed-spool")?;
    match system.open() {
        Ok(mut host) => {
            add_others(rt, system.root.as_str())?;
            all_lists(&rt, rt.alloc(), &mut host)?
        }
        Err(_) => panic!(rt; "not opened"),
    }
    system.leave()
}
