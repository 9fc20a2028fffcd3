//! The peers and their rounds.
ghost use Rattle.std.specs.Prelude.{◌≡◌, ◌<◌, ◌≤◌, ◌-◌, ◌^◌, [], IfOk, length, true};
ghost use Rattle.std.specs.List.{AllByRecursion};
ghost use Rattle.std.specs.Option.{option_copied};
ghost use Rattle.q_keyed.specs.Numbered.{AreApart, AreKeysApart, first_number, first_such, item_at, next_number, values_of};
ghost use Rattle.q_rounds.specs.Rounds.{AreStartsApart, is_peer, key_eq, key_of, waits};

use crate::peer::{Peer, PeerKey};
use crate::round::Round;
use q_chains::Chains;
use q_keyed::Keyed;
use q_sorted::Sorted;
use std::alloc::{AllocError, Global};
use std::marker::Model;

/// Peers in the order in which they came. A contract sees them as a list with their numbers.
#[derive(Debug, Drop)]
pub struct Rounds {
    pub(crate) peers: Keyed<Peer>,
    /// The jobs of peers, each with a number and with its rows.
    pub(crate) rounds: Keyed<Round>,
    /// For each round the numbers of its peers that were never sent to, in the order of peers.
    pub(crate) fresh: Chains,
    /// The numbers of all other peers, in the groups of their rounds, by when they were sent to.
    pub(crate) tickets: Sorted,
    /// How many peers are passed.
    pub(crate) passed: u32,
}

impl Model for Rounds {
    ghost use Rattle.q_keyed.specs.Numbered.{Items};
    ghost use Rattle.q_rounds.specs.declared.peer.Peer.{Peer};
    ghost use Rattle.q_rounds.specs.Sound.{IsSound};

    ghost Value = { Items Peer };

    ghost view = { λ a. a.peers };

    ghost invariant = { λ a. IsSound a.peers a.rounds a.fresh a.tickets a.passed };
}

impl Rounds {
    /// No peer, and room for so many. An error says that memory is wanting.
    pub fn new(alloc: Global, room: u32) -> Result<Rounds, AllocError>
        requires some { 1 ≤ room }
        requires few { room < 2 ^ 30 }
        ensures { IfOk result (λ made. made ≡ record { items = []; room = room }) }
    {
        let peers = Keyed::new(alloc, room)?;
        let rounds = Keyed::new(alloc, room)?;
        let fresh = Chains::new(alloc, room, room)?;
        let tickets = Sorted::new(alloc, room)?;
        Ok(Rounds {
            peers,
            rounds,
            fresh,
            tickets,
            passed: 0,
        })
    }

    /// No two peers have one number, are of one message and site, or were last sent to with one
    /// number, rows wait for each, and there are no more than have room, whatever was called: this
    /// does nothing, and is there for callers whose proofs want to know it.
    pub fn stand_apart(&self)
        ensures apart { AreApart self.now.items }
        ensures keys { AreKeysApart key_eq key_of self.now.items }
        ensures starts { AreStartsApart (values_of self.now.items) }
        ensures wait { AllByRecursion (λ p. waits p ≡ true) (values_of self.now.items) }
        ensures within { length self.now.items ≤ self.now.room }
        ensures few { self.now.room < 2 ^ 30 }
    {
        self.peers.stand_apart();
    }

    /// How many peers there are.
    pub fn len(&self) -> u32
        ensures { result ≡ length self.now.items }
    {
        self.peers.stand_apart();
        self.peers.len() as u32
    }

    /// How many peers more have room.
    pub fn spare(&self) -> u32
        ensures { result ≡ self.now.room - length self.now.items }
    {
        self.peers.spare()
    }

    /// The number of the message's peer at the site.
    pub fn find(&self, key: &PeerKey) -> Option<u32>
        ensures { result ≡ first_such (is_peer key.now.id key.now.site) self.now.items }
    {
        self.peers.find(key)
    }

    /// The peer of a number.
    pub fn get(&self, number: u32) -> Option<&Peer>
        ensures { option_copied result ≡ item_at number self.now.items }
    {
        self.peers.get(number)
    }

    /// The number of the first peer.
    pub fn first(&self) -> Option<u32>
        ensures { result ≡ first_number self.now.items }
    {
        self.peers.first()
    }

    /// The number of the peer right behind the one of this number.
    pub fn next(&self, number: u32) -> Option<u32>
        ensures { result ≡ next_number number self.now.items }
    {
        self.peers.next(number)
    }
}
