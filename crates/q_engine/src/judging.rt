//! Which events are refused, before anything is done.
ghost use Rattle.std.specs.Option.{is_some};
ghost use Rattle.std.specs.Prelude.{◌≡◌, IfNone, IfSome, true};
ghost use Rattle.q_core.specs.Queries.{flight_in};
ghost use Rattle.q_engine.specs.Heard.{is_moment};
ghost use Rattle.q_engine.specs.Refusals.{Flies, ForAgreed, is_early, is_of_event, IsAdmissible, IsPossible, kind_refused_by, MayArrive, refused_by, refused_event, refused_kind, refused_mail, refused_reply, told_count};
ghost use Rattle.q_model.specs.Deliveries.{flight_of};

use crate::engine::Engine;
use crate::error::EngineError;
use q_model::{Bound, Event, MOST_MAIL_BYTES, MOST_RECIPIENTS, Outcome, Outcomes, Receiver};

/// A count, of which no more than 2^32 - 1 is told.
fn counted(count: usize) -> u32
    ensures { result ≡ told_count count }
{
    if count > u32::MAX as usize {
        return u32::MAX;
    }
    count as u32
}

fn mail_refusal(arrived: u32, to: &[Receiver], content: &[u8]) -> Option<EngineError>
    ensures exact { result ≡ refused_mail arrived to.now content.now }
    ensures possible { IfNone result (MayArrive arrived to.now content.now) }
    ensures kind { IfSome result (λ error. is_of_event error ≡ true) }
{
    if content.len() > MOST_MAIL_BYTES as usize {
        return Some(EngineError::Limit {
            bound: Bound::Content,
        });
    }
    if to.len() > MOST_RECIPIENTS as usize {
        return Some(EngineError::Limit {
            bound: Bound::Recipients,
        });
    }
    if arrived == u32::MAX {
        return Some(EngineError::Limit {
            bound: Bound::Serial,
        });
    }
    None
}

impl Engine {
    fn reply_refusal(&self, number: u64, outcomes: &[Outcome]) -> Option<EngineError>
        ensures ledger { ForAgreed self.now (λ w l. result
            ≡ refused_reply number outcomes.now (flight_of l number)) }
        ensures own { result
            ≡ refused_reply number outcomes.now (flight_in self.now.core.value number) }
        ensures flies { IfNone result (Flies self.now number) }
        ensures kind { IfSome result (λ error. is_of_event error ≡ true) }
    {
        let Some(positions) = self.core.entry_positions(number) else {
            return Some(EngineError::Unknown { number });
        };
        if positions.len() == outcomes.len() {
            return None;
        }
        Some(EngineError::WrongCount {
            number,
            want: counted(positions.len()),
            got: counted(outcomes.len()),
        })
    }

    fn kind_refusal(&self, event: &Event) -> Option<EngineError>
        ensures ledger { ForAgreed self.now (λ w l. result ≡ refused_kind l event.now) }
        ensures own { result ≡ kind_refused_by self.now event.now }
        ensures possible { IfNone result (IsPossible self.now event.now) }
        ensures kind { IfSome result (λ error. is_of_event error ≡ true) }
    {
        match event {
            Event::At { .. } => None,
            Event::Mail { to, content, .. } => {
                mail_refusal(self.arrivals, to.as_slice(), content.as_slice())
            }
            Event::Reply {
                number,
                outcomes,
                ..
            } => self.reply_refusal(*number, outcomes.as_slice()),
            Event::Trigger { .. } => None,
        }
    }

    /// Whether the event is none of the first of a life, and no moment came.
    fn is_early(&self, event: &Event) -> bool
        ensures { result ≡ is_early self.now.core.value.timed event.now }
    {
        if is_moment(event) {
            return false;
        }
        !self.core.is_timed()
    }

    /// Whether `step` would refuse a reply of this number with these outcomes, once a moment came.
    pub fn refuses_reply(&self, number: u64, outcomes: &Outcomes) -> bool
        ensures ledger { ForAgreed self.now (λ w l. result
            ≡ is_some (refused_reply number outcomes.now (flight_of l number))) }
        ensures own { result
            ≡ is_some (refused_reply number outcomes.now (flight_in self.now.core.value number)) }
    {
        self.reply_refusal(number, outcomes.as_slice()).is_some()
    }

    /// Why the event is refused, where it is.
    pub(crate) fn refusal(&self, event: &Event) -> Option<EngineError>
        ensures ledger { ForAgreed self.now (λ w l. result ≡ refused_event l event.now) }
        ensures own { result ≡ refused_by self.now event.now }
        ensures none { IfNone result (IsAdmissible self.now event.now) }
        ensures kind { IfSome result (λ error. is_of_event error ≡ true) }
    {
        if self.is_early(event) {
            return Some(EngineError::Untimed);
        }
        self.kind_refusal(event)
    }
}

fn is_moment(event: &Event) -> bool
    ensures { result ≡ is_moment event.now }
{
    match event {
        Event::At { .. } => true,
        _ => false,
    }
}
