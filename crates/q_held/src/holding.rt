//! Rows are held back and let go.
ghost use Rattle.std.specs.Prelude.{◌≡◌, false, find, map, None};
ghost use Rattle.q_held.specs.Held.{held_at, released};
ghost use Rattle.q_held.specs.Sound.{numbers_of, with_marks};
ghost use Rattle.q_marked.specs.Marks.{is_marked};

use crate::rows::Rows;
use q_marked::Marked;
use q_model::Site;
use q_peers::Waiting;

/// Marks the numbers of the rows to the site, or takes their marks away, by a walk along these.
fn mark_at(waiting: &Waiting, marks: &mut Marked, site: &Site, held: bool)
    requires order { marks.old.order ≡ numbers_of waiting.now.items }
    ensures order { marks.new.order ≡ marks.old.order }
    ensures numbers { marks.new.numbers ≡ marks.old.numbers }
    ensures rows { with_marks marks.new.marks waiting.now.items
        ≡ map (held_at site.now held) (with_marks marks.old.marks waiting.now.items) }
{
    waiting.stand_apart();
    let mut at = waiting.first_at(site);
    while let Some(number) = at {
        marks.stand_marked();
        marks.mark(number, held);
        at = waiting.next_at(number);
    }
}

/// Takes the marks of all numbers away that have one.
fn unmark_all(marks: &mut Marked)
    ensures order { marks.new.order ≡ marks.old.order }
    ensures numbers { marks.new.numbers ≡ marks.old.numbers }
    ensures none { find (λ n. is_marked n marks.new.marks) marks.old.order ≡ None }
{
    while let Some(number) = marks.first() {
        marks.stand_marked();
        marks.mark(number, false);
    }
}

impl Rows {
    /// Holds back the rows to a site, or lets them go, by a walk along these: in as many steps as
    /// there are, each a few searches.
    pub fn hold(&mut self, site: &Site, held: bool)
        ensures { self.new ≡ record self.old
            { items = map (held_at site.now held) self.old.items } }
    {
        mark_at(&self.waiting, &mut self.marks, site, held);
    }

    /// Lets all rows go, in as many steps as are held back.
    pub fn release_all(&mut self)
        ensures { self.new ≡ record self.old
            { items = map released self.old.items } }
    {
        unmark_all(&mut self.marks);
    }
}
