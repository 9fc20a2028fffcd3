//! Beginning a delivery.
ghost use Rattle.std.specs.Prelude.{IsTrue, IfOk, OnErr, OnOk};
ghost use Rattle.q_host.specs.Calls.{Stays};
ghost use Rattle.q_host.specs.Faults.{DiskCause};
ghost use Rattle.q_link.specs.Records.{AddsHops, Connects, with_connect, with_hop};
ghost use Rattle.q_link.specs.WaitsLeft.{Spares};
ghost use Rattle.q_session.specs.Mails.{Mail, StandsAt};
ghost use Rattle.q_agent.specs.Openings.{Connected, MayBegin, with_link};
ghost use Rattle.q_agent.specs.Requests.{IsReadable, TriesConnect};

use crate::delivery_session::Work;
use crate::reading::read_letter;
use q_host::{Host, HostError};
use q_link::{Hops, Link, NoLink};
use q_model::{Hop, Moment, NoMemory, Positions, Spot};
use q_session::Session;
use std::alloc::Global;

/// Opens a connection; none where the next hop has no route or the connection fails.
fn connect<L: Link, N: Hops<Link = L>>(
    alloc: Global,
    hops: &mut N,
    hop: &Hop,
) -> Result<Option<L>, NoMemory>
    ensures connected { IfOk result (Connected L.view hop.now (N.view hops.old) (N.view hops.new)) }
    ensures hop { OnOk result (AddsHops (with_hop hop.now) (N.view hops.old) (N.view hops.new)) }
    ensures spares { IfOk result (λ link. Spares 0 (N.view hops.old).waits_left
        (with_link L.view (N.view hops.new) link)) }
    ensures err { OnErr result (AddsHops with_connect (N.view hops.old) (N.view hops.new)) }
    ensures counts { Connects (N.view hops.old) (N.view hops.new) }
{
    match hops.connect(alloc, hop) {
        Ok(link) => Ok(Some(link)),
        Err(NoLink::NoRoute) => Ok(None),
        Err(NoLink::Failed) => Ok(None),
        Err(NoLink::NoMemory) => Err(NoMemory),
    }
}

/// Reads what the delivery needs, connects to the next hop, and makes the session.
pub(crate) fn begin<H: Host, L: Link, N: Hops<Link = L>>(
    alloc: Global,
    host: &mut H,
    hops: &mut N,
    spot: Spot,
    hop: &Hop,
    positions: &Positions,
    now: Moment,
) -> Result<Option<Work<L>>, HostError>
    requires there { IsTrue H.tells → (mail : Mail) × StandsAt H.tells (H.view host.old) spot mail
        × IsReadable mail positions.now }
    ensures begins { IfOk result (MayBegin L.view H.tells (H.view host.old) spot hop.now
        positions.now now (N.view hops.old) (N.view hops.new)) }
    ensures connects { OnOk result (IsTrue H.tells
        → AddsHops (with_hop hop.now) (N.view hops.old) (N.view hops.new)) }
    ensures err { OnErr result (TriesConnect hop.now (N.view hops.old) (N.view hops.new)) }
    ensures counts { Connects (N.view hops.old) (N.view hops.new) }
    ensures stays { IsTrue H.tells → Stays (H.view host.old) (H.view host.new) }
    ensures cause { DiskCause (H.faults host.old) (H.faults host.new) result }
{
    let Some(letter) = read_letter(alloc, host, spot, positions)? else {
        return Ok(None);
    };
    let Some(link) = connect(alloc, hops, hop)? else {
        return Ok(None);
    };
    let session = Session::new(alloc, spot, &letter.file, &letter.to, now)?;
    Ok(Some(Work { session, link }))
}
