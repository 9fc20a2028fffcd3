//! Rows come to wait, are sent and leave.
ghost use Rattle.std.specs.Prelude.{◌≡◌, ◌+◌, ◌++◌, ◌<◌, ◌^◌, [], ◌∷◌, find, length, None, true};
ghost use Rattle.q_rounds.specs.Rounds.{has_last, is_peer, new_peer};
ghost use Rattle.q_turns.specs.Turns.{gained_at, lost_at, may_wait, started_at, waiting_for};

use crate::heading::{head_of, message_ticket};
use crate::laning::{drop_lane, make_lane, put_in, take_out};
use crate::turns::Turns;
use q_model::{Id, Site};
use q_rounds::{Peer, PeerKey};

impl Turns {
    /// A peer comes behind all others, with a lane and its tickets.
    fn come(&mut self, id: Id, site: &Site)
        requires absent { find (is_peer id site.now) self.old.peers ≡ None }
        requires job { may_wait self.old.lines site.now.transport id ≡ true }
        requires room { length self.old.peers < self.old.room }
        ensures { self.new ≡ record self.old
            { peers = self.old.peers ++ new_peer id site.now 0 ∷ [] } }
    {
        self.peers.stand_apart();
        self.lanes.stand_apart();
        self.heads.stand_sorted();
        self.messages.stand_sorted();
        make_lane(&mut self.lanes, &mut self.heads, &self.suspended, site);
        self.lanes.stand_apart();
        let number = self.peers.add(id, site, 0);
        let peer = Peer {
            id,
            site: *site,
            waiting: 1,
            last: 0,
            passed: false,
        };
        self.messages.insert(message_ticket(&peer, number));
        let head = head_of(&self.lines, &self.lanes, number, &peer);
        put_in(&mut self.heads, head);
    }

    /// How many rows of the message wait for the site.
    pub fn waiting(&self, id: Id, site: &Site) -> u32
        ensures { result ≡ waiting_for id site.now self.now.peers }
    {
        self.peers.stand_apart();
        let key = PeerKey { id, site: *site };
        let Some(number) = self.peers.find(&key) else {
            return 0;
        };
        match self.peers.get(number) {
            Some(peer) => peer.waiting,
            None => 0,
        }
    }

    /// One row more of the message waits for the site. It has a job at the transport, where that
    /// has a line.
    pub fn gain(&mut self, id: Id, site: &Site)
        requires job { may_wait self.old.lines site.now.transport id ≡ true }
        requires few { waiting_for id site.now self.old.peers + 1 < 2 ^ 32 }
        requires room { length self.old.peers < self.old.room }
        ensures { self.new ≡ record self.old { peers = gained_at id site.now self.old.peers } }
    {
        self.peers.stand_apart();
        let key = PeerKey { id, site: *site };
        let Some(number) = self.peers.find(&key) else {
            self.come(id, site);
            return;
        };
        self.peers.gain(number);
    }

    /// The message was last sent to the site in the delivery of this number.
    pub fn start(&mut self, id: Id, site: &Site, last: u64)
        requires some { 0 < last }
        requires own { find (has_last last) self.old.peers ≡ None }
        ensures { self.new ≡ record self.old
            { peers = started_at id site.now last self.old.peers } }
    {
        self.peers.stand_apart();
        let key = PeerKey { id, site: *site };
        let Some(number) = self.peers.find(&key) else {
            return;
        };
        self.peers.start(number, last);
    }

    /// One row less of the message waits for the site.
    pub fn lose(&mut self, id: Id, site: &Site)
        ensures { self.new ≡ record self.old { peers = lost_at id site.now self.old.peers } }
    {
        self.peers.stand_apart();
        self.lanes.stand_apart();
        let key = PeerKey { id, site: *site };
        let Some(number) = self.peers.find(&key) else {
            return;
        };
        let Some(peer) = self.peers.get(number).copied() else {
            return;
        };
        if peer.waiting > 1 {
            self.peers.lose(number);
            return;
        }
        self.messages.remove(&message_ticket(&peer, number));
        let head = head_of(&self.lines, &self.lanes, number, &peer);
        take_out(&mut self.heads, head);
        drop_lane(&mut self.lanes, &self.heads, &peer.site);
        self.peers.remove(number);
    }
}
