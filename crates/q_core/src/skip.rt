//! Recipients whose site is dead are put off.
ghost use Rattle.std.specs.Prelude.{◌≡◌, IsTrue, option_map, Some, true};
ghost use Rattle.std.specs.List.{list_any};
ghost use Rattle.q_core.specs.Lists.{AtFirst, AtPlace};
ghost use Rattle.q_core.specs.Rules.{next_skip_number};
ghost use Rattle.q_core.specs.Changes.{is_looked_at, left_sites, with_served, with_sites};
ghost use Rattle.q_core.specs.Tidied.{tidied_served};
ghost use Rattle.q_core.specs.Leaving.{fails_in, IsFirstDead, IsLastSkip, IsUnqueued, SkipsRowAt};
ghost use Rattle.q_core.specs.Sending.{AtRowFor, is_for, row_for};
ghost use Rattle.q_positions.specs.Rows.{row_shown};
ghost use Rattle.q_model.specs.declared.rows.Row.{Row as RowOf};

use crate::counting::put_off_row;
use crate::needs::add_put_off;
use crate::rows::{first_row, take_row};
use crate::state::Core;
use crate::touched::touch_message;
use q_model::{Id, Site};
use q_positions::RowRef;

impl Core {
    /// The message's first row for the site.
    fn row_for(&self, id: Id, site: &Site) -> Option<RowRef<'_>>
        ensures { option_map row_shown result ≡ row_for self.now id site.now }
    {
        first_row(&self.waiting, id, site)
    }

    /// Whether the recipients of the message's first row for the site fail where they are put off:
    /// the message is too old. Where their failures have no space, which is so in no ledger, they
    /// are only put off.
    fn fails(&self, id: Id, site: &Site) -> bool
        ensures { (r : RowOf) → row_for self.now id site.now ≡ Some r → result ≡ fails_in self.now r }
    {
        match self.row_for(id, site) {
            Some(row) => {
                if self.id_expired(row.id) {
                    self.has_space(row.positions)
                } else {
                    false
                }
            }
            None => false,
        }
    }

    /// Takes the message's first row for the site out, adds what its recipients need, and keeps its
    /// positions. Where nothing goes to the site any more, it is forgotten, or goes behind the others
    /// if it is dead.
    fn unqueue(&mut self, id: Id, site: &Site)
        requires there { list_any (is_for id site.now) self.old.waiting ≡ true }
        ensures row { AtRowFor self.old id site.now (λ r. AtFirst (is_for id site.now)
            self.old.waiting (λ entry. IsUnqueued self.old (with_served self.old.served
            (with_sites self.old.sites self.new)) entry r)) }
        ensures left { AtRowFor self.old id site.now (λ r. self.new.sites
            ≡ left_sites self.new self.old.sites r.site) }
        ensures served { self.new.served ≡ tidied_served self.new.waiting self.old.served }
        ensures timed { self.new.timed ≡ self.old.timed }
    {
        let fails = self.fails(id, site);
        let before = self.unsettled.len();
        self.waiting.stand_apart();
        let Some(row) = first_row(&self.waiting, id, site) else {
            unreachable!()
        };
        let (owner, target) = (row.id, *row.site);
        let count = row.positions.len();
        self.skipped.set(0, row.positions);
        add_put_off(&mut self.unsettled, owner, fails, row.positions);
        self.unsettled.stand_within();
        let needs = self.unsettled.len().saturating_sub(before);
        take_row(&mut self.waiting, id, site);
        touch_message(&mut self.touched_message, owner);
        self.sites.stand_apart();
        self.sites.leave(&target);
        self.schedule.stand_apart();
        self.schedule.lose(owner, &target);
        put_off_row(&mut self.admitted, owner, needs as u64);
        let done = count.saturating_sub(needs);
        self.in_memory = self.in_memory.saturating_sub(done as u64);
    }

    /// Gives the row that was put off last its number.
    fn note_skip(&mut self)
        ensures { self.new ≡ record self.old { skips = next_skip_number self.old } }
    {
        self.skips = self.next_skip_number();
    }

    /// Puts off the recipients of the message's first row for the site, which is dead.
    pub(crate) fn skip(&mut self, id: Id, site: &Site)
        requires there { list_any (is_for id site.now) self.old.waiting ≡ true }
        requires seen { IsTrue (is_looked_at self.old) }
        ensures skipped { AtFirst (is_for id site.now) self.old.waiting
            (λ entry. IsFirstDead self.old entry → SkipsRowAt self.old entry self.new) }
        ensures noted { AtFirst (is_for id site.now) self.old.waiting
            (λ entry. AtPlace self.old.waiting entry
            (λ r. IsLastSkip self.old r.positions self.new)) }
        ensures timed { self.new.timed ≡ self.old.timed }
    {
        self.unqueue(id, site);
        self.tidy();
        self.note_skip();
    }
}
