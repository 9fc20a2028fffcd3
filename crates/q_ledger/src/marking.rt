//! A failure is stored, a recipient is marked, marks are synced: what is allowed, and what becomes of the
//! ledger.
ghost use Rattle.std.specs.Prelude.{◌≡◌, ◌&&◌, ◌||◌, false, OnErr, OnOk};
ghost use Rattle.std.specs.List.{list_any};
ghost use Rattle.std.specs.Option.{option_map_or};
ghost use Rattle.q_ledger.specs.Marked.{logged_in, marked_in, noted_in, settled_in, synced_in, with_book, without_first};
ghost use Rattle.q_ledger.specs.Following.{Changes};
ghost use Rattle.q_model.specs.Book.{message_of};
ghost use Rattle.q_model.specs.BookChanges.{change_message};
ghost use Rattle.q_model.specs.Logs.{first_logged, may_log, needs_log, why_eq};
ghost use Rattle.q_model.specs.Marking.{is_unmarked_at, marks_first, needs_mark, with_mark};
ghost use Rattle.q_model.specs.Message.{is_logged};
ghost use Rattle.q_model.specs.Ids.{id_eq};
ghost use Rattle.q_model.specs.Syncs.{sync_all};

use crate::ids::same_id;
use crate::ledger::Ledger;
use q_model::{Entry, Failure, Id, Need, NoMemory, Unsettled, Why};

fn same_why(a: Why, b: Why) -> bool
    ensures { result ≡ why_eq a b }
{
    a == b
}

fn needs_log(need: Need, failure: &Failure) -> bool
    ensures { result ≡ needs_log failure.now need }
{
    match need {
        Need::Log { why, code } => same_why(failure.why, why) && failure.code == code,
        Need::Mark => false,
    }
}

fn needs_mark(need: Need) -> bool
    ensures { result ≡ needs_mark need }
{
    match need {
        Need::Log { .. } => false,
        Need::Mark => true,
    }
}

/// The first outcome needs its mark next.
fn want_mark(unsettled: &mut [Unsettled])
    ensures { unsettled.new ≡ first_logged unsettled.old }
{
    if let [first, ..] = unsettled {
        first.need = Need::Mark;
    }
}

impl Ledger {
    pub(crate) fn may_log(&self, id: Id, failure: &Failure) -> bool
        ensures { result ≡ may_log self.now.ledger id failure.now }
    {
        match self.unsettled.first() {
            Some(first) => {
                same_id(first.id, id)
                    && first.position == failure.position
                    && needs_log(first.need, failure)
            }
            None => false,
        }
    }

    /// The failure is stored.
    fn store_failure(&mut self, id: Id, failure: Failure) -> Result<(), NoMemory>
        ensures stored { OnOk result (self.new ≡ logged_in self.old id failure) }
        ensures lack { OnErr result (self.new ≡ self.old) }
    {
        self.book.add_failure(id, failure)?;
        want_mark(&mut self.unsettled);
        Ok(())
    }

    /// The same of an entry that is allowed.
    pub(crate) fn log(&mut self, id: Id, failure: Failure) -> Result<(), NoMemory>
        ensures changed { OnOk result (Changes self.old (Entry.Log id failure) self.new) }
        ensures lack { OnErr result (self.new ≡ self.old) }
    {
        self.store_failure(id, failure)?;
        Ok(())
    }

    /// Whether the mark is what the first unsettled outcome needs.
    fn marks_first(&self, id: Id, position: u32) -> bool
        ensures { result ≡ marks_first self.now.ledger id position }
    {
        match self.unsettled.first() {
            Some(first) => {
                same_id(first.id, id) && first.position == position && needs_mark(first.need)
            }
            None => false,
        }
    }

    /// Whether the message has the failure and lacks the mark.
    fn lacks_mark(&self, id: Id, position: u32) -> bool
        ensures { result ≡ option_map_or (λ m. is_logged m position && is_unmarked_at m position)
            (message_of self.now.ledger.book id) false }
    {
        match self.book.message(id) {
            Some(message) => {
                message.is_logged(position as usize) && message.is_unmarked(position as usize)
            }
            None => false,
        }
    }

    pub(crate) fn may_mark(&self, id: Id, position: u32) -> bool
        ensures { result ≡ (marks_first self.now.ledger id position
            || (list_any (id_eq id) self.now.leftovers
            && option_map_or (λ m. is_logged m position && is_unmarked_at m position)
            (message_of self.now.ledger.book id) false)) }
    {
        self.marks_first(id, position) || self.is_leftover(id) && self.lacks_mark(id, position)
    }

    /// The first outcome is settled.
    fn settle_first(&mut self)
        ensures { self.new ≡ without_first self.old }
    {
        if !self.unsettled.is_empty() {
            self.unsettled.remove(0);
        }
    }

    /// The outcome that needs the mark is settled.
    fn settle_mark(&mut self, id: Id, position: u32)
        ensures { self.new ≡ settled_in self.old id position }
    {
        if self.marks_first(id, position) {
            self.settle_first();
            self.count_rows(id, 0, 1);
        }
    }

    fn write_mark(&mut self, id: Id, position: u32)
        ensures { self.new ≡ with_book
            (change_message self.old.ledger.book id (with_mark position)) self.old }
    {
        self.book.mark(id, position);
    }

    /// The mark is written, and the outcome that needs it is settled.
    fn settle_and_mark(&mut self, id: Id, position: u32)
        ensures { self.new ≡ marked_in self.old id position }
    {
        self.settle_mark(id, position);
        self.write_mark(id, position);
    }

    /// The same of an entry that is allowed.
    pub(crate) fn mark(&mut self, id: Id, position: u32)
        ensures { Changes self.old (Entry.Mark id position) self.new }
    {
        self.total_rows(0);
        self.settle_and_mark(id, position);
    }

    /// A leftover counts as synced in this life.
    fn note_synced(&mut self, id: Id) -> Result<(), NoMemory>
        ensures noted { OnOk result (self.new ≡ noted_in self.old id) }
        ensures lack { OnErr result (self.new ≡ self.old) }
    {
        if self.is_leftover(id) {
            self.synced.insert(0, id)?;
        }
        Ok(())
    }

    fn sync_marks(&mut self, id: Id)
        ensures { self.new ≡ with_book (change_message self.old.ledger.book id sync_all) self.old }
    {
        self.book.sync(id);
    }

    /// The marks are synced; a leftover counts as synced in this life.
    fn note_and_sync(&mut self, id: Id) -> Result<(), NoMemory>
        ensures synced { OnOk result (self.new ≡ synced_in self.old id) }
        ensures lack { OnErr result (self.new ≡ self.old) }
    {
        self.note_synced(id)?;
        self.sync_marks(id);
        Ok(())
    }

    /// The same of an entry that is allowed.
    pub(crate) fn sync(&mut self, id: Id) -> Result<(), NoMemory>
        ensures changed { OnOk result (Changes self.old (Entry.Sync id) self.new) }
        ensures lack { OnErr result (self.new ≡ self.old) }
    {
        self.note_and_sync(id)?;
        Ok(())
    }
}
