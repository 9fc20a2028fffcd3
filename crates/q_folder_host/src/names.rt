//! The names of a folder, in order.
ghost use Rattle.std.specs.Prelude.{◌≤◌, ◌↔◌, length, OnOk, IsTrue};
ghost use Rattle.q_host.specs.Reads.{IsAfter, Rise};

use q_model::{Name, Names, NoMemory};
use std::alloc::{AllocError, Global};
use std::cmp::Ordering;
use std::collections::BTreeSet;
use std::io;
use std::io::{ErrorKind, Read};
use std::ops::Bound;

/// How many bytes of a folder's names are asked for at once.
const PIECE: usize = 4096;

// Adds the names that stand in these bytes, each ended by a NUL. A text that is no `Name`, as `.`
// and `..`, is passed over.
fn add_names(known: &mut BTreeSet<Name>, bytes: &[u8]) -> Result<(), AllocError> {
    for name in bytes.split(|byte| *byte == 0).filter_map(Name::new) {
        known.insert(name)?;
    }
    Ok(())
}

/// All names that a folder gives. No piece ends inside one.
pub(crate) fn names_of<D: Read>(alloc: Global, folder: &mut D) -> io::Result<BTreeSet<Name>> {
    let mut known = BTreeSet::new(alloc);
    let mut piece = [0u8; PIECE];
    for _ in 0..u64::MAX {
        match folder.read(&mut piece) {
            Ok(0) => break,
            Ok(count) => add_names(&mut known, &piece[..count])?,
            Err(e) if e.kind() == ErrorKind::Interrupted => {}
            Err(e) => return Err(e),
        }
    }
    Ok(known)
}

fn is_after(after: &Option<Name>, name: &Name) -> bool
    ensures { IsTrue result ↔ IsAfter after.now name.now }
{
    match after {
        None => true,
        Some(other) => other.cmp(name) == Ordering::Less,
    }
}

/// Puts the 64 least of the names after one, or all, in place of what stood in `out`.
pub(crate) fn list_names(
    known: &BTreeSet<Name>,
    after: &Option<Name>,
    out: &mut Names,
) -> Result<(), NoMemory>
    ensures form { OnOk result (Rise after.now out.new) }
    ensures few { OnOk result (length out.new ≤ 64) }
{
    out.clear();
    let mut last = *after;
    let start = after.map_or(Bound::Unbounded, Bound::Excluded);
    for name in known.range((start, Bound::Unbounded)) {
        let full = out.len() >= Names::ROOM;
        if full {
            break;
        }
        // The names come in order. That they do is looked at here in place of a proof.
        if is_after(&last, name) {
            out.push(*name)?;
            last = Some(*name);
        }
    }
    Ok(())
}
