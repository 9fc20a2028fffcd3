//! The rules of the next decision, one function for each. Of the ledger of a life in which an
//! `at` came, the first that answers is the next decision.
ghost use Rattle.q_core.specs.Agrees.{ForLedgers};
ghost use Rattle.q_core.specs.Decisions.{IsReadRule, IsRule, IsRuleOrLooks, IsRuleOrActiveLook};
ghost use Rattle.q_model.specs.Next.{admission_rule, finishing_rule, leftover_rule, load_rule, settling_rule, skip_rule, start_rule, sync_rule};

use crate::decision::Decision;
use crate::state::Core;

/// The first outcome that isn't on disk is logged or marked.
pub fn n1(core: &Core) -> Option<Decision>
    ensures { ForLedgers core.now (λ w l. IsRule core.now result (settling_rule l)) }
{
    core.first_need()
}

/// The marks of a message are synced: there are `mark_sync_limit` of them, or some and the message
/// is idle.
pub fn n2(core: &Core) -> Option<Decision>
    ensures { ForLedgers core.now (λ w l. IsRule core.now result (sync_rule w l)) }
{
    core.next_sync()
}

/// The first waiting row at a dead site is put off.
pub fn n3(core: &Core) -> Option<Decision>
    ensures { ForLedgers core.now (λ w l. IsRule core.now result (skip_rule l)) }
{
    core.next_skip()
}

/// The first idle message is deferred, else its bounce is stored, else it is removed.
pub fn n4(core: &Core) -> Option<Decision>
    ensures { ForLedgers core.now (λ w l. IsRule core.now result (finishing_rule w l)) }
{
    core.next_finish()
}

/// The least message that an earlier life left in active is cleared; or the look at active that
/// tells which that is.
pub fn n5(core: &Core) -> Option<Decision>
    ensures { ForLedgers core.now (λ w l. IsRuleOrActiveLook core.now result (leftover_rule w l)) }
{
    core.next_clearing()
}

/// The next file of incoming or deferred comes into memory, or goes to corrupt; or the look that
/// tells which that is.
pub fn n6(core: &Core) -> Option<Decision>
    ensures { ForLedgers core.now (λ w l. IsRuleOrLooks core.now result (admission_rule w l)) }
{
    core.next_admission()
}

/// Recipients of the first message in memory that may read are read.
pub fn n7(core: &Core) -> Option<Decision>
    ensures { ForLedgers core.now (λ w l. IsReadRule w l result (load_rule w l)) }
{
    core.next_read()
}

/// A delivery begins, or a job preempts the current one.
pub fn n8(core: &Core) -> Option<Decision>
    ensures { ForLedgers core.now (λ w l. IsRule core.now result (start_rule w l)) }
{
    core.next_start()
}
