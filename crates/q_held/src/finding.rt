//! The first row, and the next one: of all, and of a site; the first of a message to a site; and
//! the first that is held back.
ghost use Rattle.std.specs.Prelude.{◌≡◌, find, option_map};
ghost use Rattle.q_held.specs.Held.{plain};
ghost use Rattle.q_peers.specs.Numbered.{any_row, first_such, is_at, is_for, next_such};

use crate::rows::Rows;
use q_model::{Id, Site};

impl Rows {
    /// The number of the first row.
    pub fn first(&self) -> Option<u32>
        ensures { result ≡ first_such any_row (plain self.now.items) }
    {
        self.waiting.first()
    }

    /// The number of the row right behind the one of this number.
    pub fn next(&self, number: u32) -> Option<u32>
        ensures { result ≡ next_such (λ r. any_row) number (plain self.now.items) }
    {
        self.waiting.next(number)
    }

    /// The number of the first row to a site.
    pub fn first_at(&self, site: &Site) -> Option<u32>
        ensures { result ≡ first_such (is_at site.now) (plain self.now.items) }
    {
        self.waiting.first_at(site)
    }

    /// The number of the next row to the same site, behind the one of this number.
    pub fn next_at(&self, number: u32) -> Option<u32>
        ensures { result ≡ next_such (λ r. is_at r.site) number (plain self.now.items) }
    {
        self.waiting.next_at(number)
    }

    /// The number of the first row of a message to a site.
    pub fn first_for(&self, id: Id, site: &Site) -> Option<u32>
        ensures { result ≡ first_such (is_for id site.now) (plain self.now.items) }
    {
        self.waiting.first_for(id, site)
    }

    /// The number of the first row that is held back.
    pub fn first_held(&self) -> Option<u32>
        ensures { result
            ≡ option_map (λ h. h.number) (find (λ h. h.held) self.now.items) }
    {
        self.marks.first()
    }
}
