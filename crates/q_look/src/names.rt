//! Which name of an area comes first, of those that are looked for.
ghost use Rattle.std.specs.Prelude.{◌≡◌, IfOk, IfNone, IfSome, IsTrue};
ghost use Rattle.q_host.specs.Calls.{Stays};
ghost use Rattle.q_host.specs.Faults.{DiskCause};
ghost use Rattle.q_look.specs.FirstNames.{HasNone, IsFirstWanted, IsFirstIn, IsNamed};

use crate::wanted::Wanted;
use q_host::{Host, HostError, last_of_full};
use q_model::{Area, DeferredName, Name, Names};
use std::alloc::Global;

/// The file of the first of these names that is looked for.
fn first_of<W: Wanted>(names: &[Name], wanted: &W) -> Option<DeferredName>
    ensures some { IfSome result (IsFirstIn (W.names wanted.now) names.now) }
    ensures none { IfNone result (HasNone (W.names wanted.now) names.now) }
{
    for name in names {
        if let Some(file) = wanted.file_of(*name) {
            return Some(file);
        }
    }
    None
}

/// The file of the first name of an area behind `after` that is looked for. 64 names are listed at
/// a time.
pub(crate) fn first_name<H: Host, W: Wanted>(
    alloc: Global,
    host: &mut H,
    area: Area,
    after: Option<Name>,
    wanted: &W,
) -> Result<Option<DeferredName>, HostError>
    ensures first { IfOk result (λ found. IsTrue H.tells
        → IsFirstWanted (W.names wanted.now) ((H.view host.old).files area) after found) }
    ensures named { IfOk result (λ found. IfSome found (IsNamed (W.names wanted.now))) }
    ensures stays { IsTrue H.tells → Stays (H.view host.old) (H.view host.new) }
    ensures cause { DiskCause (H.faults host.old) (H.faults host.new) result }
{
    let mut names = Names::new(alloc)?;
    let mut behind = after;
    'walk: loop {
        host.list_after(area, behind, &mut names)?;
        if let Some(file) = first_of(names.as_slice(), wanted) {
            return Ok(Some(file));
        }
        let Some(last) = last_of_full(&names) else {
            return Ok(None);
        };
        behind = Some(last);
    }
}
