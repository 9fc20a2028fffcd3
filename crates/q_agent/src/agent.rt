//! The agent.
ghost use Rattle.std.specs.Prelude.{◌≡◌, ◌≢◌, ◌↔◌, [], false, true, IsTrue, IfOk, OnOk, OnErr};
ghost use Rattle.std.specs.List.{AllByRecursion, list_all};
ghost use Rattle.q_host.specs.Calls.{Stays};
ghost use Rattle.q_host.specs.Faults.{DiskCause};
ghost use Rattle.q_link.specs.Records.{AddsHops, Connects, Rests, StaysOpen, with_hop};
ghost use Rattle.q_link.specs.WaitsLeft.{Spares};
ghost use Rattle.q_session.specs.Mails.{Mail, StandsAt};
ghost use Rattle.q_agent.specs.Sessions.{OpenSession, Sessions, has_number, is_sweep_over, link_waits, next_polled, with_session};
ghost use Rattle.q_agent.specs.Requests.{IsReadable, Opens, TriesConnect, active_spot};
ghost use Rattle.q_agent.specs.Rests.{RestsOne};
ghost use Rattle.q_agent.specs.Answers.{IsStanding, PollsNext, Stopped};
ghost use Rattle.q_agent.specs.WaitsLeft.{polls_spent, waits_left};

use crate::delivery_session::DeliverySession;
use crate::opening::begin;
use crate::report::{Report, Request};
use crate::slot::{Slot, next_slot, place_above};
use q_host::{Host, HostError};
use q_link::{Hops, Link};
use q_model::{Area, Id, Moment, Positions, Spot, id_name};
use slab::Slab;
use std::alloc::Global;
use std::marker::Model;

/// Open sessions, each with its link. A contract sees the list of them, in order of their numbers,
/// with what is known of their links, and which of them this sweep polled.
#[derive(Drop)]
pub struct Agent<L: Link> {
    // in order of their numbers
    slots: Vec<Slot>,
    // A session is large, and stays where it is while others come and go.
    sessions: Slab<DeliverySession<L>>,
    // This sweep polled the sessions up to this number.
    polled: u64,
}

impl<L: Link> Model for Agent<L> {
    ghost use Rattle.std.specs.Prelude.{map};
    ghost use Rattle.q_agent.specs.Sessions.{Sessions};
    ghost use Rattle.q_agent.specs.Slots.{Holds, shown_at};

    ghost Value = { Sessions };

    ghost view = { λ a. record {
      listed = map (shown_at L.view a.sessions) a.slots.items;
      polled = a.polled;
    } };

    ghost invariant = { λ a. Holds L.view a.sessions a.slots.items };
}

/// The place of a message's queue file.
fn active_spot(id: Id) -> Spot
    ensures { result ≡ active_spot id }
{
    Spot {
        area: Area::Active,
        name: id_name(id),
    }
}

impl<L: Link> Agent<L> {
    /// An agent without sessions, which takes no memory.
    pub fn new(alloc: Global) -> Agent<L>
        ensures { result ≡ record { listed = []; polled = 0 } }
    {
        Agent {
            slots: Vec::new(alloc),
            sessions: Slab::new(alloc),
            polled: 0,
        }
    }

    /// Whether no session is open.
    pub fn is_empty(&self) -> bool
        ensures { IsTrue result ↔ (self.now.listed ≡ []) }
    {
        self.slots.is_empty()
    }

    /// Opens a session for a delivery to the recipients at these positions: reads their addresses
    /// from the message's queue file in active, connects to the next hop of the site, and makes the
    /// session. It makes one connect at most. Where there is no route or the connection fails, and
    /// on a host that doesn't tell its files where the file can't be read, the session has no link.
    /// After an error none was opened.
    pub fn request<H: Host, N: Hops<Link = L>>(
        &mut self,
        alloc: Global,
        host: &mut H,
        hops: &mut N,
        ask: Request,
        positions: &Positions,
        now: Moment,
    ) -> Result<(), HostError>
        requires fresh { has_number ask.number self.old.listed ≡ false }
        requires there { IsTrue H.tells → (mail : Mail)
            × StandsAt H.tells (H.view host.old) (active_spot ask.id) mail
            × IsReadable mail positions.now }
        ensures ok { OnOk result ((o : OpenSession) × (self.new ≡ with_session o self.old)
            × Opens H.tells (H.view host.old) (active_spot ask.id) ask.number ask.site.hop
            positions.now now (N.view hops.old) (N.view hops.new) o) }
        ensures connects { OnOk result (IsTrue H.tells
            → AddsHops (with_hop ask.site.hop) (N.view hops.old) (N.view hops.new)) }
        ensures spares { OnOk result (Spares 0 (waits_left (N.view hops.old) self.old)
            (waits_left (N.view hops.new) self.new)) }
        ensures err { OnErr result (self.new ≡ self.old) }
        ensures tries { OnErr result
            (TriesConnect ask.site.hop (N.view hops.old) (N.view hops.new)) }
        ensures counts { Connects (N.view hops.old) (N.view hops.new) }
        ensures stays { IsTrue H.tells → Stays (H.view host.old) (H.view host.new) }
        ensures cause { DiskCause (H.faults host.old) (H.faults host.new) result }
    {
        self.slots.reserve(1)?;
        self.sessions.reserve(1)?;
        let Request { number, id, site } = ask;
        let spot = active_spot(id);
        let work = begin(alloc, host, hops, spot, &site.hop, positions, now)?;
        let key = self.sessions.insert_reserved(DeliverySession {
            recipients: positions.len(),
            work,
        });
        let place = place_above(&self.slots, number);
        // Room was reserved.
        let _ = self.slots.insert(place, Slot { number, key });
        Ok(())
    }

    /// Polls the next session that this sweep hasn't polled, in order of their numbers; where the
    /// sweep is over, this begins the next one. Where the session is over, its link is closed, and
    /// it is reported. `None` comes where it goes on, and where no session is open.
    ///
    /// After an error each delivery has its session still, and the sweep has not gone on. Where
    /// closing its link took memory that wasn't there, the session has no link from then on.
    pub fn poll_next<H: Host, N: Hops<Link = L>>(
        &mut self,
        alloc: Global,
        host: &mut H,
        hops: &mut N,
        now: Moment,
    ) -> Result<Option<Report>, HostError>
        requires there { IsTrue H.tells
            → AllByRecursion (IsStanding H.tells (H.view host.old)) self.old.listed }
        ensures ok { IfOk result (λ r. PollsNext H.tells (H.view host.old) now
            (N.view hops.old) (N.view hops.new) (next_polled self.old) r self.old self.new) }
        ensures spares { IfOk result (λ r. Spares (polls_spent (next_polled self.old) r)
            (waits_left (N.view hops.old) self.old) (waits_left (N.view hops.new) self.new)) }
        ensures err { OnErr result (Stopped (next_polled self.old) self.old self.new) }
        ensures unrecorded { OnErr result (StaysOpen (N.view hops.old) (N.view hops.new)) }
        ensures stays { IsTrue H.tells → Stays (H.view host.old) (H.view host.new) }
        ensures cause { DiskCause (H.faults host.old) (H.faults host.new) result }
    {
        let Some((place, slot)) = next_slot(&self.slots, self.polled) else {
            return Ok(None);
        };
        let Some(found) = self.sessions.get_mut(slot.key) else {
            return Ok(None);
        };
        let report = found.poll(alloc, host, hops, slot.number, now)?;
        self.polled = slot.number;
        let Some(report) = report else {
            return Ok(None);
        };
        self.slots.remove(place);
        self.sessions.try_remove(slot.key);
        Ok(Some(report))
    }

    /// Begins the next sweep without a poll.
    pub fn next_sweep(&mut self)
        ensures { self.new ≡ record self.old { polled = 0 } }
    {
        self.polled = 0;
    }

    /// Whether this sweep polled every open session.
    pub fn sweep_over(&self) -> bool
        ensures { result ≡ is_sweep_over self.now }
    {
        place_above(&self.slots, self.polled) == self.slots.len()
    }

    /// Gives one of the open links to the rest of these hops. The sweep is over, a session is open,
    /// and the link of every open session waits.
    pub fn rest<N: Hops<Link = L>>(&mut self, hops: &mut N)
        requires over { is_sweep_over self.old ≡ true }
        requires some { self.old.listed ≢ [] }
        requires waits { list_all link_waits self.old.listed ≡ true }
        ensures rests { RestsOne self.old self.new }
        ensures hops { Rests (N.view hops.old) (N.view hops.new) }
        ensures spares { Spares 0 (waits_left (N.view hops.old) self.old)
            (waits_left (N.view hops.new) self.new) }
    {
        let Some(first) = self.slots.first() else {
            return;
        };
        let Some(found) = self.sessions.get_mut(first.key) else {
            return;
        };
        found.rest(hops);
    }
}
