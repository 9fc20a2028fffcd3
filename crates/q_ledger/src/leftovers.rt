//! Messages in active that an earlier life left there.
ghost use Rattle.std.specs.Prelude.{◌≡◌, ◌<◌, if◌then◌else◌, not, Some, vec_capacity, vec_len};
ghost use Rattle.std.specs.Option.{option_map_or};
ghost use Rattle.std.specs.List.{list_any};
ghost use Rattle.q_model.specs.Ids.{id_before, id_eq};
ghost use Rattle.q_model.specs.Leftovers.{was_synced};
ghost use Rattle.q_model.specs.Lists.{least};
ghost use Rattle.q_ledger.specs.Changed.{ids_without, not_left};

use crate::ids::{is_before, same_id};
use crate::ledger::Ledger;
use q_model::Id;

/// The lesser of an id and of the least behind it.
pub(crate) fn lesser(id: Id, least: Option<Id>) -> Option<Id>
    ensures { result ≡ Some (option_map_or (λ y. if id_before y id then y else id) least id) }
{
    match least {
        Some(other) if is_before(other, id) => Some(other),
        _ => Some(id),
    }
}

/// The least of these ids.
fn least_of(ids: &[Id]) -> Option<Id>
    ensures { result ≡ least id_before ids.now }
{
    let mut least = None;
    let mut i = ids.len();
    while i > 0 {
        i -= 1;
        least = lesser(ids[i], least);
    }
    least
}

fn is_another(other: Id, id: Id) -> bool
    ensures { result ≡ not (id_eq other id) }
{
    !same_id(other, id)
}

/// Takes the id out of these.
pub(crate) fn drop_id(ids: &mut Vec<Id>, id: Id)
    ensures items { ids.new.items ≡ ids_without id ids.old.items }
    ensures room { vec_len ids.old < vec_capacity ids.old → vec_len ids.new < vec_capacity ids.new }
{
    ids.retain(|other| is_another(*other, id));
}

impl Ledger {
    /// Whether the id is in active and not in memory.
    pub(crate) fn is_leftover(&self, id: Id) -> bool
        ensures { result ≡ list_any (id_eq id) self.now.leftovers }
    {
        self.leftovers.iter().any(|other| same_id(id, *other))
    }

    /// The least of these.
    pub(crate) fn next_leftover(&self) -> Option<Id>
        ensures { result ≡ least id_before self.now.leftovers }
    {
        least_of(&self.leftovers)
    }

    pub(crate) fn was_synced(&self, id: Id) -> bool
        ensures { result ≡ was_synced self.now.ledger id }
    {
        self.synced.iter().any(|other| same_id(id, *other))
    }

    /// The message isn't in active any more.
    pub(crate) fn drop_leftover(&mut self, id: Id)
        ensures { self.new ≡ not_left id self.old }
    {
        drop_id(&mut self.leftovers, id);
    }
}
