//! When two decisions are the same.
ghost use Rattle.std.specs.Prelude.{◌≡◌, Decides, IsTrue, false};
ghost use Rattle.q_laws.specs.Traces.{is_outside};
ghost use Rattle.q_model.specs.declared.entry.Entry.TheVariants.{Admit, Back, Bounce, Corrupt, Defer, Load, Log, Mark, Preempt, Remove, Skip, Start, Sync};

use crate::ids::{same_id, same_positions, same_site};
use q_model::{Entry, Failure, Id, Site};

/// Whether the ids are one.
fn is_id(a: Id, b: Id) -> bool
    ensures { Decides result (a ≡ b) }
{
    same_id(a, b)
}

fn is_site(a: &Site, b: &Site) -> bool
    ensures { Decides result (a.now ≡ b.now) }
{
    same_site(a, b)
}

fn are_positions(a: &[u32], b: &[u32]) -> bool
    ensures { Decides result (a.now ≡ b.now) }
{
    same_positions(a, b)
}

fn is_failure(a: &Failure, b: &Failure) -> bool
    ensures { Decides result (a.now ≡ b.now) }
{
    a.position == b.position && a.why == b.why && a.code == b.code
}

fn is_back(entry: &Entry, id: Id) -> bool
    ensures { Decides result (entry.now ≡ Back id) }
{
    match entry {
        Entry::Back { id: other } => is_id(*other, id),
        _ => false,
    }
}

fn is_admit(entry: &Entry, id: Id) -> bool
    ensures { Decides result (entry.now ≡ Admit id) }
{
    match entry {
        Entry::Admit { id: other } => is_id(*other, id),
        _ => false,
    }
}

fn is_sync(entry: &Entry, id: Id) -> bool
    ensures { Decides result (entry.now ≡ Sync id) }
{
    match entry {
        Entry::Sync { id: other } => is_id(*other, id),
        _ => false,
    }
}

fn is_bounce(entry: &Entry, id: Id) -> bool
    ensures { Decides result (entry.now ≡ Bounce id) }
{
    match entry {
        Entry::Bounce { id: other } => is_id(*other, id),
        _ => false,
    }
}

fn is_remove(entry: &Entry, id: Id) -> bool
    ensures { Decides result (entry.now ≡ Remove id) }
{
    match entry {
        Entry::Remove { id: other } => is_id(*other, id),
        _ => false,
    }
}

fn is_corrupt(entry: &Entry, id: Id) -> bool
    ensures { Decides result (entry.now ≡ Corrupt id) }
{
    match entry {
        Entry::Corrupt { id: other } => is_id(*other, id),
        _ => false,
    }
}

fn is_mark(entry: &Entry, id: Id, position: u32) -> bool
    ensures { Decides result (entry.now ≡ Mark id position) }
{
    match entry {
        Entry::Mark {
            id: other,
            position: at,
        } => is_id(*other, id) && *at == position,
        _ => false,
    }
}

fn is_defer(entry: &Entry, id: Id, due: u64) -> bool
    ensures { Decides result (entry.now ≡ Defer id due) }
{
    match entry {
        Entry::Defer {
            id: other,
            due: then,
        } => is_id(*other, id) && *then == due,
        _ => false,
    }
}

fn is_load(entry: &Entry, id: Id, from: u32, to: u32) -> bool
    ensures { Decides result (entry.now ≡ Load id from to) }
{
    match entry {
        Entry::Load {
            id: other,
            from: first,
            to: end,
        } => is_id(*other, id) && *first == from && *end == to,
        _ => false,
    }
}

fn is_log(entry: &Entry, id: Id, failure: &Failure) -> bool
    ensures { Decides result (entry.now ≡ Log id failure.now) }
{
    match entry {
        Entry::Log {
            id: other,
            failure: stored,
        } => is_id(*other, id) && is_failure(stored, failure),
        _ => false,
    }
}

fn is_preempt(entry: &Entry, child: Id, parent: Id, transport: u8, need: u32) -> bool
    ensures { Decides result (entry.now ≡ Preempt child parent transport need) }
{
    match entry {
        Entry::Preempt {
            child: c,
            parent: p,
            transport: t,
            need: n,
        } => is_id(*c, child) && is_id(*p, parent) && *t == transport && *n == need,
        _ => false,
    }
}

fn is_skip(entry: &Entry, id: Id, site: &Site, positions: &[u32]) -> bool
    ensures { Decides result (entry.now ≡ Skip id site.now positions.now) }
{
    match entry {
        Entry::Skip {
            id: other,
            site: at,
            positions: found,
        } => {
            is_id(*other, id) && is_site(at, site) && are_positions(found.as_slice(), positions)
        }
        _ => false,
    }
}

fn is_start(entry: &Entry, number: u64, id: Id, site: &Site, positions: &[u32]) -> bool
    ensures { Decides result (entry.now ≡ Start number id site.now positions.now) }
{
    match entry {
        Entry::Start {
            number: n,
            id: other,
            site: at,
            positions: found,
        } => {
            *n == number
                && is_id(*other, id)
                && is_site(at, site)
                && are_positions(found.as_slice(), positions)
        }
        _ => false,
    }
}

/// Whether an entry is this decision; an entry that comes from outside is none.
pub(crate) fn is_same(due: &Entry, entry: &Entry) -> bool
    ensures same { IsTrue result → due.now ≡ entry.now }
    ensures only { is_outside due.now ≡ false → due.now ≡ entry.now → IsTrue result }
{
    match due {
        Entry::Back { id } => is_back(entry, *id),
        Entry::Admit { id } => is_admit(entry, *id),
        Entry::Load { id, from, to } => is_load(entry, *id, *from, *to),
        Entry::Start {
            number,
            id,
            site,
            positions,
        } => is_start(entry, *number, *id, site, positions.as_slice()),
        Entry::Preempt {
            child,
            parent,
            transport,
            need,
        } => is_preempt(entry, *child, *parent, *transport, *need),
        Entry::Skip {
            id,
            site,
            positions,
        } => is_skip(entry, *id, site, positions.as_slice()),
        Entry::Log { id, failure } => is_log(entry, *id, failure),
        Entry::Mark { id, position } => is_mark(entry, *id, *position),
        Entry::Sync { id } => is_sync(entry, *id),
        Entry::Defer { id, due: then } => is_defer(entry, *id, *then),
        Entry::Bounce { id } => is_bounce(entry, *id),
        Entry::Remove { id } => is_remove(entry, *id),
        Entry::Corrupt { id } => is_corrupt(entry, *id),
        Entry::Life { .. } => false,
        Entry::At { .. } => false,
        Entry::Arrive { .. } => false,
        Entry::Reply { .. } => false,
        Entry::Trigger { .. } => false,
        Entry::End => false,
    }
}
