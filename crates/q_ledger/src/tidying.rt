//! What holds after an entry that takes a row: lines and served rows of what is left.
ghost use Rattle.std.specs.Prelude.{◌≡◌, ◌==◌, ◌≤◌, filter, not, vec_capacity, vec_len};
ghost use Rattle.std.specs.List.{list_any};
ghost use Rattle.q_ledger.specs.LinesLeft.{is_served_at, line_by, lines_by, stays_by, waits_there, with_lines_left, with_served_left};

use crate::ids::{same_id, same_site};
use crate::ledger::Ledger;
use crate::leftovers::drop_id;
use crate::line::Line;
use crate::waiting::waits_among;
use q_model::{Id, Row, Served, Site};

/// Whether one of these rows waits for the transport.
fn waits_for(rows: &[Row], transport: usize) -> bool
    ensures { result ≡ list_any (λ r. r.site.transport == transport) rows.now }
{
    rows.iter()
        .any(|row| usize::from(row.site.transport) == transport)
}

/// Whether a message with these rows that wait stays in the line of the transport.
fn stays_by(rows: &[Row], unread: bool, transport: usize) -> bool
    ensures { result ≡ stays_by rows.now unread transport }
{
    unread || waits_for(rows, transport)
}

impl Line {
    fn tidy(&mut self, rows: &[Row], unread: bool, id: Id, transport: usize)
        ensures { self.new ≡ line_by rows.now unread id (transport, self.old) }
    {
        if !stays_by(rows, unread, transport) {
            drop_id(&mut self.ids, id);
        }
    }
}

fn tidy_lines(lines: &mut [Line], rows: &[Row], unread: bool, id: Id)
    ensures { lines.new ≡ lines_by rows.now unread id lines.old }
{
    for (transport, line) in lines.iter_mut().enumerate() {
        line.tidy(rows, unread, id, transport);
    }
}

fn is_of_others(served: &Served, id: Id, site: &Site) -> bool
    ensures { result ≡ not (is_served_at id site.now served.now) }
{
    !(same_id(served.id, id) && same_site(&served.site, site))
}

/// Forgets when the message was last sent to the site.
pub(crate) fn forget_served(served: &mut Vec<Served>, id: Id, site: &Site)
    ensures items { served.new.items ≡ filter (λ s. not (is_served_at id site.now s))
        served.old.items }
    ensures len { vec_len served.new ≤ vec_len served.old }
    ensures capacity { vec_capacity served.new ≡ vec_capacity served.old }
{
    served.retain(|last| is_of_others(last, id, site));
}

impl Ledger {
    /// The message leaves the lines of the transports at which it has nothing left.
    pub(crate) fn tidy_lines(&mut self, id: Id)
        ensures { self.new ≡ with_lines_left id self.old }
    {
        let unread = self.unread(id) != 0;
        tidy_lines(&mut self.lines, self.waiting.of(id), unread, id);
    }

    fn waits_at_for(&self, id: Id, site: &Site) -> bool
        ensures { result ≡ waits_there self.now.ledger id site.now }
    {
        waits_among(self.waiting.of(id), site)
    }

    /// Where the message doesn't wait at the site any more, it counts as never served there.
    pub(crate) fn tidy_served(&mut self, id: Id, site: &Site)
        ensures { self.new ≡ with_served_left id site.now self.old }
    {
        if !self.waits_at_for(id, site) {
            forget_served(&mut self.served, id, site);
        }
    }
}
