//! The order of open sessions.
ghost use Rattle.std.specs.Prelude.{◌≡◌, ◌≤◌, ◌<◌, [], IfNone, IfSome, length};
ghost use Rattle.std.specs.List.Sorted.{IsNonDecreasingBy};
ghost use Rattle.q_agent.specs.Places.{IsNext, Parts};

/// Under which key the session of a delivery is kept.
#[derive(Clone, Copy, Debug, PartialEq, Eq)]
pub(crate) struct Slot {
    pub(crate) number: u64,
    pub(crate) key: usize,
}

/// The place of the first slot above a number, or behind the last.
pub(crate) fn place_above(slots: &[Slot], number: u64) -> usize
    requires { IsNonDecreasingBy (λ (e : Slot). e.number) slots.now }
    ensures within { result ≤ length slots.now }
    ensures place { Parts number slots.now result }
{
    slots.partition_point(|slot| slot.number <= number)
}

/// The first slot above a number, and its place; where none is above it, the first of all.
pub(crate) fn next_slot(slots: &[Slot], polled: u64) -> Option<(usize, Slot)>
    requires { IsNonDecreasingBy (λ (e : Slot). e.number) slots.now }
    ensures none { IfNone result (slots.now ≡ []) }
    ensures some { IfSome result (λ r. IsNext polled slots.now r.0 r.1) }
{
    let place = place_above(slots, polled);
    if let Some(slot) = slots.get(place) {
        return Some((place, *slot));
    }
    let slot = slots.first()?;
    Some((0, *slot))
}
