//! A delivery begins.
ghost use Rattle.std.specs.Prelude.{◌≡◌, ◌++◌, ◌<◌, ◌∷◌, [], OnErr, OnOk, vec_capacity, vec_len};
ghost use Rattle.q_ledger.specs.Following.{Changes};
ghost use Rattle.q_ledger.specs.Sent.{sent_in, served_now};

use crate::ledger::Ledger;
use crate::tidying::forget_served;
use q_model::{Delivery, Entry, Id, NoMemory, Row, Served, Site};

/// Notes the number of the message's last delivery to the site.
fn note_served(served: &mut Vec<Served>, id: Id, site: &Site, number: u64)
    requires { vec_len served.old < vec_capacity served.old }
    ensures { served.new.items ≡ served_now id site.now number served.old.items }
{
    forget_served(served, id, site);
    let _ = served.insert(
        0,
        Served {
            id,
            site: *site,
            last: number,
        },
    );
}

fn add_flight(flights: &mut Vec<Delivery>, number: u64, row: Row)
    requires { vec_len flights.old < vec_capacity flights.old }
    ensures { flights.new.items ≡ flights.old.items
        ++ record { number = number; row = row } ∷ [] }
{
    let _ = flights.push(Delivery { number, row });
}

impl Ledger {
    /// The row is in flight, and its site is the last served.
    fn send(&mut self, number: u64, id: Id, site: &Site, positions: &[u32]) -> Result<(), NoMemory>
        ensures sent { OnOk result (self.new
            ≡ sent_in number id site.now positions.now self.old) }
        ensures lack { OnErr result (self.new ≡ self.old) }
    {
        self.flights.reserve(1)?;
        self.served.reserve(1)?;
        if let Some(row) = self.waiting.take(id, site, positions) {
            note_served(&mut self.served, id, site, number);
            add_flight(&mut self.flights, number, row);
        }
        Ok(())
    }

    /// The same of an entry that is allowed, with lines and served rows tidied.
    pub(crate) fn start(
        &mut self,
        number: u64,
        id: Id,
        site: &Site,
        positions: &[u32],
    ) -> Result<(), NoMemory>
        ensures changed { OnOk result (Changes self.old
            (Entry.Start number id site.now positions.now) self.new) }
        ensures lack { OnErr result (self.new ≡ self.old) }
    {
        self.send(number, id, site, positions)?;
        self.tidy_lines(id);
        self.tidy_served(id, site);
        Ok(())
    }
}
