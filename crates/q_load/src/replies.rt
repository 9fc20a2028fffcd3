//! The replies of a load.
ghost use Rattle.std.specs.Prelude.{◌≡◌, IfOk, replicate};
ghost use Rattle.q_engine.specs.Heard.{IsEventInForm};
ghost use Rattle.q_load.specs.Due.{outcome_of};
ghost use Rattle.q_model.specs.declared.event.Event.TheVariants as events;
ghost use Rattle.q_model.specs.declared.outcome.SiteState.TheVariants.{Up};

use q_model::{Event, NoMemory, Outcome, Outcomes, SiteState};
use std::alloc::Global;

/// What becomes of each recipient, by the number of the reply.
fn outcome_of(reply: u64) -> Outcome
    ensures { result ≡ outcome_of reply }
{
    if reply % 10 == 0 {
        Outcome::Later(450)
    } else {
        Outcome::Ok
    }
}

fn outcomes(alloc: Global, reply: u64, recipients: usize) -> Result<Outcomes, NoMemory>
    ensures { IfOk result (λ outcomes. outcomes ≡ replicate recipients (outcome_of reply)) }
{
    let outcome = outcome_of(reply);
    let items = vec![in alloc; outcome; recipients]?;
    Ok(Outcomes::from_vec(items))
}

/// The reply of this number, to a delivery with so many recipients.
pub(crate) fn reply(
    alloc: Global,
    reply: u64,
    number: u64,
    recipients: usize,
) -> Result<Event, NoMemory>
    ensures exact { IfOk result (λ event. event
        ≡ events.Reply number Up (replicate recipients (outcome_of reply))) }
    ensures form { IfOk result IsEventInForm }
{
    Ok(Event::Reply {
        number,
        site: SiteState::Up,
        outcomes: outcomes(alloc, reply, recipients)?,
    })
}
