//! The kinds of entries: the number of each row, and which come from outside.
ghost use Rattle.std.specs.Prelude.{◌≡◌};
ghost use Rattle.q_fronts.specs.Rules.{row_of};
ghost use Rattle.q_laws.specs.Traces.{is_outside};

use q_model::Entry;

/// The number of the row of an entry, from the top.
pub(crate) fn row_of(entry: &Entry) -> u8
    ensures { result ≡ row_of entry.now }
{
    match entry {
        Entry::Life { .. } => 1,
        Entry::At { .. } => 2,
        Entry::Arrive { .. } => 3,
        Entry::Trigger { .. } => 4,
        Entry::Reply { .. } => 5,
        Entry::Skip { .. } => 6,
        Entry::Log { .. } => 7,
        Entry::Mark { .. } => 8,
        Entry::Sync { .. } => 9,
        Entry::Admit { .. } => 10,
        Entry::Load { .. } => 11,
        Entry::Preempt { .. } => 12,
        Entry::Start { .. } => 13,
        Entry::Defer { .. } => 14,
        Entry::Back { .. } => 15,
        Entry::Bounce { .. } => 16,
        Entry::Remove { .. } => 17,
        Entry::Corrupt { .. } => 18,
        Entry::End => 19,
    }
}

/// Whether the entry comes from outside.
pub(crate) fn is_event(entry: &Entry) -> bool
    ensures { result ≡ is_outside entry.now }
{
    match entry {
        Entry::Life { .. } => true,
        Entry::At { .. } => true,
        Entry::Arrive { .. } => true,
        Entry::Trigger { .. } => true,
        Entry::Reply { .. } => true,
        Entry::End => true,
        _ => false,
    }
}
