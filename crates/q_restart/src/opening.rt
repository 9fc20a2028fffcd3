//! Opening a spool.
ghost use Rattle.std.specs.Prelude.{IfErr, IfOk, IsErrOf, IsTrue};
ghost use Rattle.q_host.specs.Calls.{Stays};
ghost use Rattle.q_host.specs.View.{Told};
ghost use Rattle.q_restart.specs.Damages.{IsNextGeneration, IsSpent, IsUndamaged};
ghost use Rattle.q_restart.specs.Judgements.{IsRefusalOfSome};
ghost use Rattle.q_restart.specs.Openings.{AcceptsOrderly, IsAccepted, IsRefusal, LeavesUnbegun, NamesDamage, OpenCause, OpensUnder, TriesToBegin};

use crate::clearing::clear;
use crate::error::OpenError;
use crate::judging::judge;
use crate::looking::look;
use crate::places::index_walk;
use crate::raising::raise;
use q_host::Host;
use std::alloc::Global;

/// A spool that was opened, under a generation of its own: at least 1.
#[derive(Clone, Copy, Debug, PartialEq, Eq)]
pub struct Spool {
    pub generation: u32,
}

/// Opens a spool: a life begins on the messages that stand there.
///
/// Damages come in this order, and the first is named:
///
/// 1. Boot has a name that is no generation, and the first such is named; or boot has more than
///    one name, and the second is named.
/// 2. An id stands twice among incoming, active, deferred, hold and corrupt, gone through in this
///    order and each in the order of names. The second name is named.
/// 3. A bounce and its cause both stand, other than the cause in active and the bounce in
///    incoming. The first such bounce, in the same order, is named.
///
/// Where none stands, and a generation is left, tmp is emptied, logs whose id stands in no queue
/// are removed, and the failure logs that stay are synced. Last, boot's file is renamed to the next
/// generation, or made as the first.
pub fn open_spool<H: Host>(alloc: Global, host: &mut H) -> Result<Spool, OpenError>
    // After Ok the host stands for the book with which the life begins.
    ensures ok { IfOk result (λ spool.
        Told H.tells H.view host.old host.new (OpensUnder spool.generation)) }

    // After every answer it stands for that book, or for the one before.
    ensures tries { Told H.tells H.view host.old host.new TriesToBegin }

    // The spool is opened, found damaged or found spent exactly where it is so.
    ensures opened { IfOk result (λ spool. IsTrue H.tells
        → IsNextGeneration (H.view host.old).files spool.generation) }
    ensures damaged { IsTrue H.tells → NamesDamage (H.view host.old).files result }
    ensures undamaged { IsTrue H.tells → IsAccepted result → IsUndamaged (H.view host.old).files }
    ensures spent { IsTrue H.tells → IsErrOf result OpenError.Spent
        → IsSpent (H.view host.old).files }
    // The same of every host, by some names and files.
    ensures some { IfErr result IsRefusalOfSome }
    ensures untouched { IsRefusal result → Told H.tells H.view host.old host.new Stays }

    // A spool on which no life can begin is only looked at, whatever the answer.
    ensures unbegun { Told H.tells H.view host.old host.new LeavesUnbegun }

    // An orderly book is never refused but at the last generation.
    ensures orderly { IsTrue H.tells → AcceptsOrderly (H.view host.old) result }
    ensures cause { OpenCause (H.faults host.old) (H.faults host.new) result }
{
    let sight = look(alloc, host)?;
    let index = index_walk(alloc, &sight.walk)?;
    let generation = judge(&sight, &index)?;
    clear(alloc, host, &index.places)?;
    raise(host, generation)?;
    Ok(Spool {
        generation: generation + 1,
    })
}
