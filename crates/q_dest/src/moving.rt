//! Changes of a site, and its place among the others.
ghost use Rattle.std.specs.Prelude.{◌≡◌, ◌<◌, ◌++◌, [], ◌∷◌, filter, find, length, map, None, not, Some, true};
ghost use Rattle.q_dest.specs.Dests.{changed_at, is_at, is_kept, settled};
ghost use Rattle.q_dest.specs.declared.dest.Dest.{Dest as DestOf};

use crate::dest::Dest;
use crate::sites::Sites;
use q_model::Site;

impl Sites {
    /// Adds a site behind all others.
    pub(crate) fn add(&mut self, dest: Dest)
        requires absent { find (is_at dest.known.site) self.old.items ≡ None }
        requires room { length self.old.items < self.old.room }
        requires kept { is_kept dest ≡ true }
        ensures { self.new ≡ record self.old { items = self.old.items ++ dest ∷ [] } }
    {
        self.table.stand_apart();
        self.table.push(dest);
        self.counts = self.counts.with(&dest);
    }

    /// Takes the site out that was found.
    pub(crate) fn remove(&mut self, site: &Site, found: &Dest)
        requires { find (is_at site.now) self.old.items ≡ Some found.now }
        ensures { self.new ≡ record self.old
            { items = filter (λ d. not (is_at site.now d)) self.old.items } }
    {
        self.table.stand_apart();
        self.table.remove(site);
        self.counts = self.counts.without(found);
    }

    /// Puts another in the place of the one that was found.
    pub(crate) fn replace(&mut self, site: &Site, found: &Dest, next: Dest)
        requires found { find (is_at site.now) self.old.items ≡ Some found.now }
        requires same { next.known.site ≡ site.now }
        requires kept { is_kept next ≡ true }
        ensures { (f : DestOf → DestOf) → f found.now ≡ next → self.new ≡ record self.old
            { items = map (changed_at site.now f) self.old.items } }
    {
        self.table.stand_apart();
        self.table.set(found, next);
        self.counts = self.counts.changed(found, &next);
    }

    /// Puts another behind all others, for the one that was found.
    fn move_last(&mut self, site: &Site, found: &Dest, next: Dest)
        requires found { find (is_at site.now) self.old.items ≡ Some found.now }
        requires same { next.known.site ≡ site.now }
        requires kept { is_kept next ≡ true }
        ensures { self.new ≡ record self.old {
          items = filter (λ d. not (is_at site.now d)) self.old.items ++ next ∷ [];
        } }
    {
        self.table.stand_apart();
        self.table.remove(site);
        self.table.push(next);
        self.counts = self.counts.changed(found, &next);
    }

    /// Puts another in its place, or behind all others where it is unused, or forgets it where it
    /// is alive then.
    pub(crate) fn settle(&mut self, site: &Site, found: &Dest, next: Dest)
        requires found { find (is_at site.now) self.old.items ≡ Some found.now }
        requires same { next.known.site ≡ site.now }
        ensures { (f : DestOf → DestOf) → f found.now ≡ next → self.new ≡ record self.old
            { items = filter is_kept (settled site.now f self.old.items) } }
    {
        self.stand_apart();
        if !next.is_kept() {
            self.remove(site, found);
        } else if next.is_unused() {
            self.move_last(site, found, next);
        } else {
            self.replace(site, found, next);
        }
    }

    /// Puts another in its place, or forgets it where it is alive and unused.
    pub(crate) fn renew(&mut self, site: &Site, found: &Dest, next: Dest)
        requires found { find (is_at site.now) self.old.items ≡ Some found.now }
        requires same { next.known.site ≡ site.now }
        ensures { (f : DestOf → DestOf) → f found.now ≡ next → self.new ≡ record self.old
            { items = filter is_kept (map (changed_at site.now f) self.old.items) } }
    {
        self.stand_apart();
        if next.is_kept() {
            self.replace(site, found, next);
        } else {
            self.remove(site, found);
        }
    }
}
