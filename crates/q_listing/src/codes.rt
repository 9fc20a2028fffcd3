//! The last code that was noted of each recipient of a message.
ghost use Rattle.std.specs.BTreeMap.{get};
ghost use Rattle.std.specs.Ordering.{nat_cmp};
ghost use Rattle.std.specs.Prelude.{◌≡◌, IfOk, IsTrue, ℕ};
ghost use Rattle.q_host.specs.Calls.{Stays};
ghost use Rattle.q_host.specs.Faults.{DiskCause};
ghost use Rattle.q_listing.specs.Listings.{last_code, notes_in};

use crate::whole::whole;
use q_host::{Host, HostError};
use q_logfile::notes;
use q_model::{Area, Id, NoMemory, Note, id_name};
use std::alloc::Global;
use std::collections::BTreeMap;

/// Codes by position.
pub type Codes = BTreeMap<u32, u16>;

/// Of each position the last code.
fn last_codes(alloc: Global, notes: &[Note]) -> Result<Codes, NoMemory>
    ensures { IfOk result (λ codes. (position : ℕ)
        → get nat_cmp codes position ≡ last_code notes.now position) }
{
    let mut codes = BTreeMap::new(alloc);
    for note in notes {
        codes.insert(note.position, note.code)?;
    }
    Ok(codes)
}

/// The code of a position.
pub fn code_of(codes: &Codes, position: u32) -> Option<u16>
    ensures { result ≡ get nat_cmp codes.now position }
{
    match codes.get(&position) {
        Some(code) => Some(*code),
        None => None,
    }
}

/// The last code of each position in the deferral log of an id. They take as much memory as the log
/// is long.
pub fn codes_of<H: Host>(alloc: Global, host: &mut H, id: Id) -> Result<Codes, HostError>
    ensures codes { IfOk result (λ codes. IsTrue H.tells → (position : ℕ)
        → get nat_cmp codes position ≡ last_code (notes_in (H.view host.old).files id) position) }
    ensures stays { IsTrue H.tells → Stays (H.view host.old) (H.view host.new) }
    ensures cause { DiskCause (H.faults host.old) (H.faults host.new) result }
{
    let bytes = whole(alloc, host, Area::Defer, id_name(id))?;
    let notes = notes(alloc, bytes.as_slice())?;
    Ok(last_codes(alloc, notes.as_slice())?)
}
