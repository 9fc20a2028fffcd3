//! What opens and closes connections, and waits for them. It is an error to wait for a link whose
//! last read or write didn't answer `NotYet`.
ghost use Rattle.std.specs.Prelude.{◌≡◌, ◌≢◌, ◌⊎◌, false, IfOk, OnOk, OnErr, IsErrOf};
ghost use Rattle.q_link.specs.Views.{NoWait};
ghost use Rattle.q_link.specs.Records.{HopsView, Closes, Connects, CountsFailure, IsFresh, IsRested, MovesWaits, Rests, StaysOpen, TellsConnect, TellsHop};
ghost use Rattle.q_link.specs.Routes.{has_route};
ghost use Rattle.q_link.specs.declared.hops.NoLink.TheVariants.{NoRoute, NoMemory as OutOfMemory};

use crate::Link;
use q_model::{Hop, NoMemory};
use std::alloc::Global;

/// Why no connection was opened.
#[derive(Clone, Copy, Debug, PartialEq, Eq)]
pub enum NoLink {
    /// The next hop is no `[a.b.c.d]:port`.
    NoRoute = 1,
    /// The connection failed.
    Failed = 2,
    /// Memory ran out.
    NoMemory = 3,
}

/// The next hops that connections are opened to. Counts of faults, rests and ends never fall, and
/// each stands at 2^64 - 1 where it would pass that; a number that is told and would pass that ends
/// the telling.
pub trait Hops {
    type Link: Link;

    /// The counts, and where it tells, each connect, rest and closed link so far.
    ghost view: { Self → HopsView };

    /// Opens a connection. `NoRoute` comes exactly where the next hop isn't `[a.b.c.d]:port` with
    /// four numbers up to 255 and a port from 1 to 65535, all without leading zeros.
    fn connect(&mut self, alloc: Global, hop: &Hop) -> Result<Self::Link, NoLink>
        ensures counts { Connects (view self.old) (view self.new) }
        ensures fresh { IfOk result (λ link.
            IsFresh hop.now (view self.new) (Self.Link.view link)) }
        ensures told { TellsHop hop.now result (view self.old) (view self.new) }
        ensures told_none { TellsConnect result (view self.old) (view self.new) }
        ensures no_route { IsErrOf result NoRoute → has_route hop.now ≡ false }
        ensures route { has_route hop.now ≡ false
            → IsErrOf result NoRoute ⊎ IsErrOf result OutOfMemory }
        ensures failed { CountsFailure result (view self.old) (view self.new) }
        ensures waits { MovesWaits Self.Link.view result (view self.old) (view self.new) };

    /// Waits a little for a link that waits, which doesn't wait any more then.
    fn rest(&mut self, link: &mut Self::Link)
        requires waits { (Self.Link.view link.old).wait ≢ NoWait }
        ensures rests { Rests (view self.old) (view self.new) }
        ensures link { IsRested (Self.Link.view link.old) (Self.Link.view link.new) };

    /// Takes a link back, and records it. After `NoMemory` nothing is recorded.
    fn close(&mut self, alloc: Global, link: Self::Link) -> Result<(), NoMemory>
        ensures ok { OnOk result (Closes (Self.Link.view link) (view self.old) (view self.new)) }
        ensures err { OnErr result (StaysOpen (view self.old) (view self.new)) };
}
