//! Counts of a message's rows, as rows come, move and go.
ghost use Rattle.std.specs.Prelude.{◌≡◌};
ghost use Rattle.q_core.specs.Counting.{recounted, with_flight, with_row_put_off, with_unsettled, with_waiting, without_flight, without_unsettled};

use q_model::Id;
use q_pool::Pool;

/// So many rows more wait.
pub(crate) fn gain_waiting(pool: &mut Pool, id: Id, rows: u64)
    ensures { pool.new ≡ record pool.old
        { items = recounted (with_waiting rows) id pool.old.items } }
{
    if let Some(kept) = pool.get(id).copied() {
        let waiting = kept.waiting.saturating_add(rows);
        pool.count(id, waiting, kept.flying, kept.unsettled);
    }
}

/// So many outcomes more are to be settled.
pub(crate) fn gain_unsettled(pool: &mut Pool, id: Id, outcomes: u64)
    ensures { pool.new ≡ record pool.old
        { items = recounted (with_unsettled outcomes) id pool.old.items } }
{
    if let Some(kept) = pool.get(id).copied() {
        let unsettled = kept.unsettled.saturating_add(outcomes);
        pool.count(id, kept.waiting, kept.flying, unsettled);
    }
}

/// A row that waited is in flight.
pub(crate) fn begin_flight(pool: &mut Pool, id: Id)
    ensures { pool.new ≡ record pool.old { items = recounted with_flight id pool.old.items } }
{
    if let Some(kept) = pool.get(id).copied() {
        let waiting = kept.waiting.saturating_sub(1);
        let flying = kept.flying.saturating_add(1);
        pool.count(id, waiting, flying, kept.unsettled);
    }
}

/// A row that waited is put off: so many outcomes of it are to be settled.
pub(crate) fn put_off_row(pool: &mut Pool, id: Id, outcomes: u64)
    ensures { pool.new ≡ record pool.old
        { items = recounted (with_row_put_off outcomes) id pool.old.items } }
{
    if let Some(kept) = pool.get(id).copied() {
        let waiting = kept.waiting.saturating_sub(1);
        let unsettled = kept.unsettled.saturating_add(outcomes);
        pool.count(id, waiting, kept.flying, unsettled);
    }
}

/// A delivery is over.
pub(crate) fn end_flight(pool: &mut Pool, id: Id)
    ensures { pool.new ≡ record pool.old { items = recounted without_flight id pool.old.items } }
{
    if let Some(kept) = pool.get(id).copied() {
        let flying = kept.flying.saturating_sub(1);
        pool.count(id, kept.waiting, flying, kept.unsettled);
    }
}

/// So many outcomes are settled.
pub(crate) fn lose_unsettled(pool: &mut Pool, id: Id, outcomes: u64)
    ensures { pool.new ≡ record pool.old
        { items = recounted (without_unsettled outcomes) id pool.old.items } }
{
    if let Some(kept) = pool.get(id).copied() {
        let unsettled = kept.unsettled.saturating_sub(outcomes);
        pool.count(id, kept.waiting, kept.flying, unsettled);
    }
}
