//! What holds over every list of lives on a spool, whatever ended each of them, by the definitions
//! alone. Each law is the contract of a function with nothing to do. The book that the lives begin
//! with is orderly and has no id twice, as an empty one and a lawful one.
#![tactic(auto)]

ghost use Rattle.std.specs.Prelude.{◌≡◌, [], true};
ghost use Rattle.q_lives.specs.Bounces.{BouncedAtMostOnce, BouncedThroughout};
ghost use Rattle.q_lives.specs.Causes.{DoneAfterCause};
ghost use Rattle.q_lives.specs.Lives.{IsOrderly, KeptByCutSteps, KeptBySteps, OfAllLives, OfTrace, OfTraceAndEnd, StaysSo, tool_steps};
ghost use Rattle.q_lives.specs.Repeats.{RepeatsUnsynced};
ghost use Rattle.q_lives.specs.Standing.{StandsOnceOrLeft};
ghost use Rattle.q_lives.specs.Throughout.{DeliversApart, DeliversOneByOne, FitsAccount, FitsWindow};
ghost use Rattle.q_lives.specs.Throughout.{KeepsLimits, LeavesDone};
ghost use Rattle.q_lives.specs.Throughout.{Throughout};
ghost use Rattle.q_model.specs.Orderly.{is_lawful};

/// The messages and the recipients in memory are within their limits.
pub fn limits_are_kept()
    ensures { OfAllLives (Throughout KeepsLimits) }
{}

/// Just after each start the deliveries in flight at its site are within the site's window.
pub fn windows_are_kept()
    ensures { OfAllLives (Throughout FitsWindow) }
{}

/// Behind the reply to a delivery the next one to its site begins the delay between deliveries later
/// or more, in the same life, unless the site was forgotten.
pub fn deliveries_keep_apart()
    ensures { OfAllLives (Throughout DeliversApart) }
{}

/// Where there is such a delay, at most one delivery to each site is in flight, by settings that let
/// windows be open.
pub fn deliveries_go_one_by_one()
    ensures { OfAllLives (Throughout DeliversOneByOne) }
{}

/// Each preemption is paid for by the account of the job that it is charged to.
pub fn accounts_are_kept()
    ensures { OfAllLives (Throughout FitsAccount) }
{}

/// A recipient is done only after an agent reported its delivery, its failure was stored or a queue
/// tool gave it up, or it was done at first.
pub fn done_has_cause()
    ensures { OfAllLives (λ book lives.
        OfTraceAndEnd (DoneAfterCause book (tool_steps lives)) book lives) }
{}

/// A start that names a recipient whose delivery was reported comes in a later life, and no mark of
/// it was synced in the life that wrote it.
pub fn repeats_unsynced()
    ensures { OfAllLives (OfTrace RepeatsUnsynced) }
{}

/// A message that arrived, was stored as a bounce or stood at first stands in exactly one queue
/// file, which can be read, or it was removed.
pub fn stands_once_or_left()
    ensures { OfAllLives (λ book lives. OfTraceAndEnd (StandsOnceOrLeft book) book lives) }
{}

/// Each message that leaves is wholly done.
pub fn leaves_done()
    ensures { OfAllLives (Throughout LeavesDone) }
{}

/// A message that leaves and wants a bounce has had one, however often its finishing was cut off;
/// one that stood at first is counted.
pub fn bounced_once()
    ensures { OfAllLives (λ book lives. BouncedThroughout book [] book lives) }
{}

/// No message has two bounces in all lives; one that stood at first is counted.
pub fn bounced_at_most_once()
    ensures { OfAllLives (λ book lives. OfTrace (BouncedAtMostOnce book) book lives) }
{}

/// Lives leave a lawful book lawful.
pub fn stays_lawful()
    ensures { OfAllLives (StaysSo is_lawful) }
{}

/// Steps of queue tools leave a book that lives may begin with, also where the last one was cut off.
pub fn tools_stay_orderly()
    ensures whole { KeptBySteps IsOrderly }
    ensures cut { KeptByCutSteps IsOrderly }
{}

/// Steps of queue tools leave a lawful book lawful, also where the last one was cut off.
pub fn tools_stay_lawful()
    ensures whole { KeptBySteps (λ b. is_lawful b ≡ true) }
    ensures cut { KeptByCutSteps (λ b. is_lawful b ≡ true) }
{}
