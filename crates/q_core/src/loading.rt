//! Recipients come into memory.
ghost use Rattle.std.specs.Prelude.{◌≡◌, ◌+◌, ◌++◌, ◌∷◌, [], IsTrue, true, length, min};
ghost use Rattle.q_core.specs.Agrees.{ForLedgers};
ghost use Rattle.q_core.specs.Changes.{IsSlotChange, is_looked_at};
ghost use Rattle.q_core.specs.Deciding.{is_answered, is_reading};
ghost use Rattle.q_core.specs.Held.{is_admitted_in};
ghost use Rattle.q_core.specs.Loading.{AreRowsAdded, fit_beside, fit_in, HasLoaded, LoadsAs, may_name, ReadsAs, rows_read};
ghost use Rattle.q_pool.specs.Slots.{read_up};

use crate::counting::gain_waiting;
use crate::grouping::group;
use crate::joining::{can_join_all, count_peers, count_rows, join_lines};
use crate::rows::add_all;
use crate::state::{Core, Question};
use crate::tidy::unread;
use crate::touched::touch_message;
use q_dest::Sites;
use q_held::Rows;
use q_model::{Batch, Cursor, Id, Site};
use q_positions::RowList;
use q_schedule::Schedule;

/// Whether these rows of the message fit in, which they do where a ledger may load them.
fn fit(waiting: &Rows, sites: &Sites, schedule: &Schedule, id: Id, rows: &RowList) -> bool
    ensures { result ≡ fit_beside waiting.now sites.now schedule.now id rows.now.rows }
{
    waiting.stand_apart();
    if (waiting.spare() as usize) < rows.len() {
        return false;
    }
    sites.stand_apart();
    if (sites.spare() as usize) < rows.len() {
        return false;
    }
    can_join_all(schedule, id, rows)
}

impl Core {
    /// So many recipients more are in memory, within the limit.
    fn count_read(&mut self, count: usize)
        ensures rest { self.new ≡ record self.old { in_memory = self.new.in_memory } }
        ensures memory { self.new.in_memory ≡ min
            (self.old.in_memory + count) self.old.params.recipient_limit }
    {
        let limit = u64::from(self.params.qmgr_message_recipient_limit);
        self.in_memory = self.in_memory.saturating_add(count as u64).min(limit);
    }

    fn note_read(&mut self, id: Id, to: u32)
        ensures { IsSlotChange self.old self.new id (read_up to) }
    {
        touch_message(&mut self.touched_message, id);
        self.admitted.read(id, to);
        self.admitted.stand_apart();
        self.schedule.read(id, unread(&self.admitted, id));
    }

    /// Takes the recipients that were read, whose sites were named, in as rows of the message, which
    /// is in memory. Where these don't fit in, nothing is done, and the answer is false.
    fn add_rows(&mut self, id: Id, taken: &Batch) -> bool
        requires there { is_admitted_in self.old id ≡ true }
        requires sited { length taken.now.items ≡ length self.old.named }
        ensures fits { result ≡ fit_in self.old id (rows_read self.old id taken.now.items) }
        ensures added { IsTrue result → AreRowsAdded self.old self.new id
            (rows_read self.old id taken.now.items) }
        ensures timed { self.new.timed ≡ self.old.timed }
    {
        group(&mut self.rows, &mut self.open_rows, id, taken, &self.named);
        let rows = &self.rows;
        if !fit(&self.waiting, &self.sites, &self.schedule, id, rows) {
            return false;
        }
        self.waiting.stand_apart();
        self.sites.stand_apart();
        self.schedule.stand_apart();
        join_lines(&mut self.schedule, id, rows);
        count_peers(&mut self.schedule, id, rows, &self.waiting);
        count_rows(&mut self.sites, rows, &self.waiting, &self.params);
        add_all(&mut self.waiting, rows, &self.sites);
        gain_waiting(&mut self.admitted, id, rows.len() as u64);
        touch_message(&mut self.touched_message, id);
        true
    }

    /// Ends the question that was answered.
    fn end_question(&mut self)
        ensures rest { self.new ≡ record self.old {
          question = Question.Nothing;
          named =
              self.new.named;
        } }
        ensures named { self.new.named ≡ [] }
    {
        self.question = Question::Nothing;
        self.named.clear();
    }

    /// Whether a read waits for its answer, and fewer sites were named than it asked recipients for.
    pub fn may_name(&self) -> bool
        ensures { result ≡ may_name self.now }
    {
        match self.question {
            Question::Recipients { max, .. } => self.named.len() < max as usize,
            Question::Active => false,
            Question::Incoming => false,
            Question::Deferred => false,
            Question::Nothing => false,
        }
    }

    /// How many sites were named since the last read was asked.
    pub fn named(&self) -> usize
        ensures { result ≡ length self.now.named }
    {
        self.named.len()
    }

    /// Notes the site of the next recipient that was read. It is an error to call it where no read
    /// waits for its answer, or for more recipients than the read's `max`.
    pub fn sited(&mut self, site: &Site)
        requires { may_name self.old ≡ true }
        ensures { self.new ≡ record self.old { named = self.old.named ++ site.now ∷ [] } }
    {
        self.named.push_reserved(*site);
    }

    /// Takes in the recipients that were read, where their rows fit in.
    fn load(&mut self, id: Id, to: u32, taken: &Batch)
        requires there { is_admitted_in self.old id ≡ true }
        requires sited { length taken.now.items ≡ length self.old.named }
        ensures exact { HasLoaded self.old self.new id to taken.now.items }
        ensures timed { self.new.timed ≡ self.old.timed }
    {
        if !self.add_rows(id, taken) {
            return;
        }
        self.note_read(id, to);
        self.count_read(taken.len());
        self.end_question();
    }

    /// Takes in the recipients that were read, up to this place.
    fn apply_read(&mut self, taken: &Batch, to: u32)
        requires seen { IsTrue (is_looked_at self.old) }
        requires sited { length taken.now.items ≡ length self.old.named }
        ensures exact { ForLedgers self.old (λ w l. ReadsAs w l self.old taken.now.items to self.new) }
        ensures timed { self.new.timed ≡ self.old.timed }
    {
        let Question::Recipients { id, .. } = self.question else {
            return;
        };
        if !self.has_slot(id) {
            return;
        }
        self.load(id, to, taken);
        self.tidy();
    }

    /// The answer to the read that waits for it: the pending recipients from the read's place on,
    /// in order, as many as it may have, whose sites were named by `sited` in the same order. The
    /// cursor stands just behind the last of them where there were so many, else behind the last
    /// recipient.
    ///
    /// It is an error to call it where no read waits for its answer, or with more or fewer
    /// recipients than sites were named since the read was asked.
    pub fn loaded(&mut self, taken: &Batch, cursor: Cursor)
        requires reading { is_reading self.old.question ≡ true }
        requires sited { length taken.now.items ≡ length self.old.named }
        requires seen { IsTrue (is_looked_at self.old) }
        ensures exact { ForLedgers self.old
            (λ w l. LoadsAs w l self.old taken.now.items cursor.position self.new) }
        ensures answered { is_answered self.new.question ≡ true }
        ensures timed { self.new.timed ≡ self.old.timed }
    {
        self.apply_read(taken, cursor.position);
        self.question = Question::Nothing;
    }
}
