//! The rows that wait.
ghost use Rattle.std.specs.Prelude.{◌≡◌, ◌<◌, ◌≤◌, ◌-◌, ◌++◌, ◌^◌, [], ◌∷◌, Bool, IfOk, filter, find, length, None, not, option_map, Some};
ghost use Rattle.std.specs.Option.{is_some};
ghost use Rattle.q_model.specs.Lists.{drop_first};
ghost use Rattle.q_model.specs.declared.rows.Row.{Row};
ghost use Rattle.q_positions.specs.Rows.{row_shown};
ghost use Rattle.q_peers.specs.Numbered.{AreApart, AreShort, first_such, has_number, row_at, rows_of};

use crate::bucket::{peer_bucket, site_bucket};
use crate::slots::{FREE, WAITING, fresh_order};
use q_chains::Chains;
use q_positions::{RowRef, Slots};
use std::alloc::{AllocError, Global};
use std::marker::Model;

/// The rows that wait. A contract sees them as a list of rows with their numbers.
#[derive(Debug, Drop)]
pub struct Waiting {
    /// The rows by number.
    pub(crate) rows: Slots,
    /// Two lists: the numbers of the rows in the order in which they came, and the free numbers.
    pub(crate) order: Chains,
    /// The numbers in each bucket of messages at sites, in the order in which the rows came.
    pub(crate) by_peer: Chains,
    /// The same in each bucket of sites.
    pub(crate) by_site: Chains,
    pub(crate) live: u32,
    /// How many numbers there are, and buckets.
    pub(crate) room: u32,
}

impl Model for Waiting {
    ghost use Rattle.std.specs.Prelude.{[], get_or};
    ghost use Rattle.q_peers.specs.Numbered.{Items};
    ghost use Rattle.q_peers.specs.Slots.{items_of};
    ghost use Rattle.q_peers.specs.Sound.{IsSound};

    ghost Value = { Items };

    ghost view = { λ a. record {
      items = items_of a.rows.rows (get_or a.order.lists 0 []);
      room = a.room;
      most = a.rows.most;
    } };

    ghost invariant = { λ a. IsSound a.rows.rows a.order a.by_peer a.by_site a.live a.room };
}

impl Waiting {
    /// No row, and room for so many, each of so many positions at most. For each of them it takes
    /// 40 bytes, in which numbers and buckets are chained, and those of the row and of its
    /// positions (`q_positions::Slots`). An error says that memory is wanting.
    pub fn new(alloc: Global, room: u32, most: u32) -> Result<Waiting, AllocError>
        requires some { 1 ≤ room }
        requires few { room < 2 ^ 30 }
        requires one { 1 ≤ most }
        requires short { most ≤ 1024 }
        ensures { IfOk result (λ made. made
            ≡ record { items = []; room = room; most = most }) }
    {
        let rows = Slots::new(alloc, room, most)?;
        let order = fresh_order(alloc, room)?;
        let by_peer = Chains::new(alloc, room, room)?;
        let by_site = Chains::new(alloc, room, room)?;
        Ok(Waiting {
            rows,
            order,
            by_peer,
            by_site,
            live: 0,
            room,
        })
    }

    /// No two rows have one number, there are no more than have room, and none has more positions
    /// than have room, whatever was called: this does nothing, and is there for callers whose proofs
    /// want to know it.
    pub fn stand_apart(&self)
        ensures apart { AreApart self.now.items }
        ensures within { length self.now.items ≤ self.now.room }
        ensures few { self.now.room < 2 ^ 30 }
        ensures short { AreShort self.now.most self.now.items }
    {
        self.rows.stand_short();
        self.order.stand_once();
    }

    /// How many rows wait.
    pub fn len(&self) -> usize
        ensures { result ≡ length self.now.items }
    {
        self.live as usize
    }

    /// How many rows more have room.
    pub fn spare(&self) -> u32
        ensures { result ≡ self.now.room - length self.now.items }
    {
        self.room - self.live
    }

    /// How many positions a row has room for.
    pub fn most(&self) -> u32
        ensures { result ≡ self.now.most }
    {
        self.rows.most()
    }

    /// The row of a number.
    pub fn get(&self, number: u32) -> Option<RowRef<'_>>
        ensures { option_map row_shown result ≡ row_at number self.now.items }
    {
        self.rows.get(number)
    }

    /// Adds a row behind all others, and gives the number that it has from now on.
    pub fn push(&mut self, row: RowRef<'_>) -> u32
        requires room { length self.old.items < self.old.room }
        requires positions { length row.positions.now ≤ self.old.most }
        ensures items { self.new ≡ record self.old {
          items = self.old.items
              ++ record { number = result; row = row_shown row.entry } ∷ [];
        } }
        ensures rows { rows_of self.new.items
            ≡ rows_of self.old.items ++ row_shown row.entry ∷ [] }
        ensures fresh { find (has_number result) self.old.items ≡ None }
        ensures below { result < self.old.room }
    {
        let Some(number) = self.order.first(FREE) else {
            unreachable!()
        };
        let peer = peer_bucket(row.id, row.site, self.room);
        let site = site_bucket(row.site, self.room);
        self.order.remove(number);
        self.order.push(WAITING, number);
        self.by_peer.push(peer, number);
        self.by_site.push(site, number);
        self.rows.put(number, row);
        self.live += 1;
        number
    }

    /// Takes the row of a number out, and tells whether there was one.
    pub fn remove(&mut self, number: u32) -> bool
        ensures taken { result ≡ is_some (row_at number self.old.items) }
        ensures items { self.new ≡ record self.old
            { items = filter (λ k. not (has_number number k)) self.old.items } }
        ensures rows { (p : Row → Bool) → first_such p self.old.items ≡ Some number
            → rows_of self.new.items ≡ drop_first p (rows_of self.old.items) }
    {
        self.order.stand_once();
        if self.rows.get(number).is_none() {
            return false;
        }
        self.order.remove(number);
        self.order.push(FREE, number);
        self.by_peer.remove(number);
        self.by_site.remove(number);
        self.rows.clear(number);
        self.live -= 1;
        true
    }
}
