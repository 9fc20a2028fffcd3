//! The candidates of a message.
ghost use Rattle.std.specs.Prelude.{◌≡◌, IfSome, true};
ghost use Rattle.std.specs.List.{list_any};
ghost use Rattle.q_rounds.specs.Rounds.{is_peer};
ghost use Rattle.q_turns.specs.Suspending.{AreTied};
ghost use Rattle.q_turns.specs.Filing.{AreOfPeers, candidate_at, is_fresh, IsFiled, IsFiledAt, site_in};

use crate::heading::{is_of_message, least_of};
use crate::turns::Turns;
use q_candidates::{Candidate, Candidates};
use q_model::{Id, Moment, Site};
use q_rounds::Rounds;

/// What is known of a message in memory beside its peers.
#[derive(Clone, Copy, Debug)]
pub struct Facts {
    pub arrival: Moment,
    /// Its place in the order of admission.
    pub rank: u64,
    /// How many of its recipients weren't read.
    pub unread: u32,
}

/// The site of the peer under a number, where it is of the message.
fn site_in(peers: &Rounds, number: u32, id: Id) -> Option<Site>
    ensures { result ≡ site_in id peers.now.items number }
{
    let peer = peers.get(number)?;
    if peer.id == id { Some(peer.site) } else { None }
}

impl Turns {
    /// Whether the message has a job at the transport that began no delivery.
    fn is_fresh(&self, transport: u8, id: Id) -> bool
        ensures { result ≡ is_fresh self.now.lines transport id }
    {
        match self.job(usize::from(transport), id) {
            Some(job) => job.starts == 0,
            None => false,
        }
    }

    /// What is to be the candidate of the message at a site at which rows of it wait.
    fn candidate_at(&self, id: Id, site: &Site, facts: Option<Facts>) -> Option<Candidate>
        requires { list_any (is_peer id site.now) self.now.peers ≡ true }
        ensures { result ≡ candidate_at self.now.lines self.now.peers facts id site.now }
    {
        let facts = facts?;
        if !self.is_fresh(site.transport, id) {
            return None;
        }
        let rows = self.peers.rows_left(id, usize::from(site.transport));
        Some(Candidate {
            id,
            site: *site,
            need: rows + u64::from(facts.unread),
            arrival: facts.arrival,
            rank: facts.rank,
        })
    }

    /// Files the message anew at the site, where there is one.
    fn file_at(&self, id: Id, site: Option<Site>, facts: Option<Facts>, candidates: &mut Candidates)
        requires room { candidates.old.room ≡ self.now.room }
        requires peers { AreOfPeers self.now.peers candidates.old.items }
        requires there { IfSome site (λ s. list_any (is_peer id s) self.now.peers ≡ true) }
        requires tied { AreTied self.now.suspended candidates.old.suspended }
        ensures room { candidates.new.room ≡ candidates.old.room }
        ensures tied { AreTied self.now.suspended candidates.new.suspended }
        ensures filed { IsFiledAt self.now.lines self.now.peers id site facts
            candidates.old.items candidates.new.items }
    {
        self.stand_apart();
        candidates.stand_apart();
        let Some(site) = site else {
            return;
        };
        match self.candidate_at(id, &site, facts) {
            Some(candidate) => candidates.put(candidate, self.suspended.has(&site)),
            None => candidates.remove(id, &site),
        }
    }

    /// Files a message anew among the candidates: at each site at which rows of it wait it has one
    /// where its job there began no delivery and something is known of it, and none else.
    pub fn file(&self, id: Id, facts: Option<Facts>, candidates: &mut Candidates)
        requires room { candidates.old.room ≡ self.now.room }
        requires peers { AreOfPeers self.now.peers candidates.old.items }
        requires tied { AreTied self.now.suspended candidates.old.suspended }
        ensures room { candidates.new.room ≡ candidates.old.room }
        ensures tied { AreTied self.now.suspended candidates.new.suspended }
        ensures filed { IsFiled self.now.lines self.now.peers id facts
            candidates.old.items candidates.new.items }
        ensures peers { AreOfPeers self.now.peers candidates.new.items }
    {
        self.peers.stand_apart();
        let mut at = self.messages.first_from(&least_of(id));
        while let Some(ticket) = at {
            if !is_of_message(&ticket, id) {
                return;
            }
            let site = site_in(&self.peers, ticket.item, id);
            self.file_at(id, site, facts, candidates);
            at = self.messages.behind(&ticket);
        }
    }
}
