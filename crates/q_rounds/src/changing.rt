//! Peers come, change and go.
ghost use Rattle.std.specs.Prelude.{◌≡◌, ◌≤◌, ◌<◌, ◌+◌, ◌++◌, ◌^◌, [], ◌∷◌, find, IfSome, length, map, None, Some};
ghost use Rattle.q_keyed.specs.Numbered.{first_such, has_number, item_at, put_at, values_of, without_number};
ghost use Rattle.q_rounds.specs.Changing.{IsOfSame};
ghost use Rattle.q_rounds.specs.Rounds.{changed_number, gained, has_last, is_peer, lost, new_peer, started};

use crate::counting::{change_rows, changed_count, round_of};
use crate::listing::{enlist, list_in, put_in, take_out, ticket_in};
use crate::peer::Peer;
use crate::rounds::Rounds;
use q_model::{Id, Site};

impl Rounds {
    /// A peer comes behind all others, for which one row waits. It gets the number that it has from
    /// now on, and was last sent to in the delivery of this number, or never where that is 0.
    pub fn add(&mut self, id: Id, site: &Site, last: u64) -> u32
        requires room { length self.old.items < self.old.room }
        requires absent { first_such (is_peer id site.now) self.old.items ≡ None }
        requires own { find (has_last last) (values_of self.old.items) ≡ None }
        ensures items { self.new ≡ record self.old {
          items = self.old.items
              ++ record { number = result; item = new_peer id site.now last } ∷ [];
        } }
        ensures fresh { find (has_number result) self.old.items ≡ None }
        ensures below { result < self.old.room }
    {
        self.peers.stand_apart();
        self.rounds.stand_apart();
        self.tickets.stand_sorted();
        let peer = Peer::new(id, *site, last);
        change_rows(&mut self.rounds, &peer, 0, 1);
        self.rounds.stand_apart();
        let number = self.peers.push(peer);
        let round = round_of(&self.rounds, &peer);
        enlist(&mut self.fresh, list_in(round, &peer), number);
        put_in(&mut self.tickets, ticket_in(round, number, &peer));
        number
    }

    /// Puts a peer with another number of rows in the place of one.
    fn put_rows(&mut self, number: u32, peer: &Peer, next: &Peer)
        requires there { item_at number self.old.items ≡ Some peer.now }
        requires same { IsOfSame peer.now next.now }
        requires some { 1 ≤ next.now.waiting }
        requires few { next.now.waiting < 2 ^ 32 }
        ensures { self.new ≡ record self.old
            { items = map (put_at number next.now) self.old.items } }
    {
        self.peers.stand_apart();
        change_rows(&mut self.rounds, peer, peer.waiting, next.waiting);
        self.passed = changed_count(self.passed, peer.passed, next.passed);
        self.peers.put(number, *next);
    }

    /// One row more waits for the peer.
    pub fn gain(&mut self, number: u32)
        requires { IfSome (item_at number self.old.items) (λ p. p.waiting + 1 < 2 ^ 32) }
        ensures { self.new ≡ record self.old
            { items = map (changed_number number gained) self.old.items } }
    {
        self.peers.stand_apart();
        let Some(peer) = self.peers.get(number).copied() else {
            return;
        };
        self.put_rows(number, &peer, &peer.gained());
    }

    /// One row less waits for the peer, for which others wait too.
    pub fn lose(&mut self, number: u32)
        requires { IfSome (item_at number self.old.items) (λ p. 1 < p.waiting) }
        ensures { self.new ≡ record self.old
            { items = map (changed_number number lost) self.old.items } }
    {
        self.peers.stand_apart();
        let Some(peer) = self.peers.get(number).copied() else {
            return;
        };
        self.put_rows(number, &peer, &peer.lost());
    }

    /// A delivery of this number is now the last of the peer.
    pub fn start(&mut self, number: u32, last: u64)
        requires some { 0 < last }
        requires own { find (has_last last) (values_of self.old.items) ≡ None }
        ensures { self.new ≡ record self.old
            { items = map (changed_number number (started last)) self.old.items } }
    {
        self.peers.stand_apart();
        self.tickets.stand_sorted();
        let Some(peer) = self.peers.get(number).copied() else {
            return;
        };
        let round = round_of(&self.rounds, &peer);
        let next = peer.started(last);
        self.passed = changed_count(self.passed, peer.passed, next.passed);
        self.fresh.remove(number);
        take_out(&mut self.tickets, ticket_in(round, number, &peer));
        self.tickets.stand_sorted();
        put_in(&mut self.tickets, ticket_in(round, number, &next));
        self.peers.put(number, next);
    }

    /// Takes the peer out, with all its rows.
    pub fn remove(&mut self, number: u32)
        ensures { self.new ≡ record self.old { items = without_number number self.old.items } }
    {
        self.peers.stand_apart();
        let Some(peer) = self.peers.get(number).copied() else {
            return;
        };
        let round = round_of(&self.rounds, &peer);
        self.fresh.remove(number);
        take_out(&mut self.tickets, ticket_in(round, number, &peer));
        change_rows(&mut self.rounds, &peer, peer.waiting, 0);
        self.passed = changed_count(self.passed, peer.passed, false);
        let _peer = self.peers.remove(number);
        self.peers.stand_apart();
    }
}
