//! What accepts connections, and waits for them.
ghost use Rattle.std.specs.Prelude.{◌≡◌, ◌≢◌, true, IfOk, IsErrOf, OnErr, OnOk};
ghost use Rattle.q_link.specs.Records.{IsRested};
ghost use Rattle.q_link.specs.Views.{NoWait};
ghost use Rattle.q_door.specs.Doors.{Accepts, Binds, Closes, CountsFailure, DoorView, IsFresh, MovesWaits, Rests, StaysOpen};

use q_link::Link;
use q_model::NoMemory;
use std::alloc::Global;

/// Why a door isn't bound, or no connection was accepted.
#[derive(Clone, Copy, Debug, PartialEq, Eq)]
pub enum DoorError {
    /// The port can't be taken, or the accept failed.
    Failed = 1,
    /// Memory ran out.
    NoMemory = 2,
}

/// A port of this machine. Counts of faults and rests never fall, and each stands at 2^64 - 1 where
/// it would pass that; a number that is told and would pass that ends the telling.
pub trait Door {
    type Link: Link;

    /// The counts, whether it is bound, and where it tells, each bind, accept, rest and closed link
    /// so far.
    ghost view: { Self → DoorView };

    /// Takes a port.
    fn bind(&mut self, port: u16) -> Result<(), DoorError>
        ensures binds { Binds port result (view self.old) (view self.new) }
        ensures bound { OnOk result ((view self.new).bound ≡ true) }
        ensures failed { CountsFailure result (view self.old) (view self.new) };

    /// Takes the next connection, and may wait for it.
    fn accept(&mut self, alloc: Global) -> Result<Self::Link, DoorError>
        requires bound { (view self.old).bound ≡ true }
        ensures accepts { Accepts (view self.old) (view self.new) }
        ensures fresh { IfOk result (λ link. IsFresh (view self.new) (Self.Link.view link)) }
        ensures failed { CountsFailure result (view self.old) (view self.new) }
        ensures waits { MovesWaits Self.Link.view result (view self.old) (view self.new) };

    /// Waits a little for a link that waits, which doesn't wait any more then.
    fn rest(&mut self, link: &mut Self::Link)
        requires waits { (Self.Link.view link.old).wait ≢ NoWait }
        ensures rests { Rests (view self.old) (view self.new) }
        ensures link { IsRested (Self.Link.view link.old) (Self.Link.view link.new) };

    /// Takes a link back, and records it. After `NoMemory` nothing is recorded.
    fn close(&mut self, alloc: Global, link: Self::Link) -> Result<(), NoMemory>
        ensures ok { OnOk result (Closes (Self.Link.view link) (view self.old) (view self.new)) }
        ensures err { OnErr result (StaysOpen (view self.old) (view self.new)) };
}
