//! The sites with the places of their rows.
ghost use Rattle.std.specs.Prelude.{◌≡◌, ◌<◌, ◌≤◌, ◌-◌, ◌^◌, [], IfOk, length, None};
ghost use Rattle.q_open_rows.specs.Opened.{AreApart, place_of, with_place};

use crate::open_row::OpenRow;
use q_keyed::Keyed;
use q_model::Site;
use std::alloc::{AllocError, Global};
use std::marker::Model;

/// Of each site the place of the row that its next recipient may join. A contract sees it as the
/// list of both.
#[derive(Debug, Drop)]
pub struct OpenRows {
    rows: Keyed<OpenRow>,
}

impl Model for OpenRows {
    ghost use Rattle.q_keyed.specs.Numbered.{values_of};
    ghost use Rattle.q_open_rows.specs.Opened.{Opened};

    ghost Value = { Opened };

    ghost view = { λ a. record { items = values_of a.rows.items; room = a.rows.room } };
}

fn remove_all(rows: &mut Keyed<OpenRow>)
    ensures { rows.new ≡ record rows.old { items = [] } }
{
    while let Some(number) = rows.first() {
        rows.stand_apart();
        let _row = rows.remove(number);
    }
}

impl OpenRows {
    /// No site, and room for so many. An error says that memory is wanting.
    pub fn new(alloc: Global, room: u32) -> Result<OpenRows, AllocError>
        requires some { 1 ≤ room }
        requires few { room < 2 ^ 30 }
        ensures { IfOk result (λ made. made ≡ record { items = []; room = room }) }
    {
        let rows = Keyed::new(alloc, room)?;
        Ok(OpenRows { rows })
    }

    /// No site stands there twice, and there are no more than have room, whatever was called: this
    /// does nothing, and is there for callers whose proofs want to know it.
    pub fn stand_apart(&self)
        ensures apart { AreApart self.now.items }
        ensures within { length self.now.items ≤ self.now.room }
        ensures few { self.now.room < 2 ^ 30 }
    {
        self.rows.stand_apart();
    }

    /// How many sites more have room.
    pub fn spare(&self) -> u32
        ensures { result ≡ self.now.room - length self.now.items }
    {
        self.rows.spare()
    }

    /// The place of the site's row.
    pub fn place(&self, site: &Site) -> Option<usize>
        ensures { result ≡ place_of site.now self.now.items }
    {
        let number = self.rows.find(site)?;
        match self.rows.get(number) {
            Some(row) => Some(row.place),
            None => None,
        }
    }

    /// Lets the site's row be the one at this place, also where another was.
    pub fn set(&mut self, site: &Site, place: usize)
        requires room { place_of site.now self.old.items ≡ None
            → length self.old.items < self.old.room }
        ensures { self.new ≡ record self.old
            { items = with_place site.now place self.old.items } }
    {
        let row = OpenRow { site: *site, place };
        match self.rows.find(site) {
            Some(number) => self.rows.put(number, row),
            None => {
                let _number = self.rows.push(row);
            }
        }
    }

    /// Takes all sites out, in as many steps as there are.
    pub fn clear(&mut self)
        ensures { self.new ≡ record self.old { items = [] } }
    {
        remove_all(&mut self.rows);
    }
}
