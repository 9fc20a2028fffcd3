//! A ticket, and a cut between the tickets of an order.
ghost use Rattle.std.specs.Prelude.{◌≡◌};
ghost use Rattle.q_sorted.specs.Blocks.{is_past};
ghost use Rattle.q_sorted.specs.Tickets.{goes_before};

/// A ticket: of a group, with a key, under a number. The key lies first, so that no place between
/// the fields is lost.
#[derive(Clone, Copy, Debug)]
pub struct Ticket {
    pub key: u128,
    pub group: u32,
    pub item: u32,
}

impl Ticket {
    /// Whether it goes before the other: by group, then by key, then by item.
    pub(crate) fn goes_before(&self, other: &Ticket) -> bool
        ensures { result ≡ goes_before self.now other.now }
    {
        self.group < other.group
            || self.group == other.group
                && (self.key < other.key || self.key == other.key && self.item < other.item)
    }
}

/// A cut right before where a ticket goes, or right behind it.
#[derive(Clone, Copy, Debug)]
pub(crate) struct Cut {
    pub(crate) ticket: Ticket,
    pub(crate) behind: bool,
}

impl Cut {
    pub(crate) fn is_past(&self, ticket: &Ticket) -> bool
        ensures { result ≡ is_past self.now ticket.now }
    {
        if self.behind {
            self.ticket.goes_before(ticket)
        } else {
            !ticket.goes_before(&self.ticket)
        }
    }
}
