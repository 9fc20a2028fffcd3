//! Which sites wake by an entry: those that are alive again, and those whose rest is over.
ghost use Rattle.std.specs.Prelude.{◌≡◌, filter, IfOk, map};
ghost use Rattle.q_ledger.specs.Tidying.{may_wake, revives, wakes, woken_by};

use crate::ledger::Ledger;
use crate::site_record::WideSiteRecord;
use q_model::{Entry, NoMemory, Site, Trigger};
use std::alloc::Global;

/// Whether the trigger revives dead sites.
fn revives(kind: Trigger) -> bool
    ensures { result ≡ revives kind }
{
    match kind {
        Trigger::D => false,
        Trigger::A => false,
        Trigger::F => true,
    }
}

impl WideSiteRecord {
    fn wakes(&self, entry: &Entry) -> bool
        ensures { result ≡ wakes entry.now self.now }
    {
        match entry {
            Entry::At { moment } => self.is_due(*moment) || self.is_rest_over(*moment),
            Entry::Trigger { kind } => revives(*kind) && self.is_dead(),
            _ => false,
        }
    }
}

/// Whether there is a site that may wake by the entry.
fn may_wake(entry: &Entry) -> bool
    ensures { result ≡ may_wake entry.now }
{
    match entry {
        Entry::At { .. } => true,
        Entry::Trigger { .. } => true,
        _ => false,
    }
}

fn woken_among(
    alloc: Global,
    sites: &[WideSiteRecord],
    entry: &Entry,
) -> Result<Vec<Site>, NoMemory>
    ensures { IfOk result (λ woken. woken.items
        ≡ map (λ r. r.site) (filter (wakes entry.now) sites.now)) }
{
    let mut woken = Vec::new(alloc);
    for noted in sites.iter() {
        if noted.wakes(entry) {
            woken.push(noted.site)?;
        }
    }
    Ok(woken)
}

impl Ledger {
    /// The sites that wake by the entry.
    pub(crate) fn woken_by(&self, alloc: Global, entry: &Entry) -> Result<Vec<Site>, NoMemory>
        ensures { IfOk result (λ woken. woken.items ≡ woken_by self.now.ledger entry.now) }
    {
        if !may_wake(entry) {
            return Ok(Vec::new(alloc));
        }
        let woken = woken_among(alloc, &self.sites, entry)?;
        Ok(woken)
    }
}
