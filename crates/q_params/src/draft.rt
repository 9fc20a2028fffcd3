//! A parameter file that is being read.
ghost use Rattle.std.specs.Prelude.{◌≡◌, ◌≢◌, ◌≤◌, IfSome, nat_lt};
ghost use Rattle.q_model.specs.Lists.{least};
ghost use Rattle.q_params.specs.ParameterFile.{agreed, disagreements, nothing_read};
ghost use Rattle.q_params.specs.Readings.{BecomesSettings, setting_line, read_setting_line, read_setting, set_at, set_named, Sets};
ghost use Rattle.q_params.specs.Values.{cost_of};

use crate::error::{ParamCause, ParamError};
use crate::parameter::Parameter;
use crate::times::seconds;
use q_feedback::Feedback;
use q_numbers::{cut, read_number32};
use q_settings::Params;
use q_text::{is_passed_over, is_text, trim};
use std::marker::Model;

/// The seconds of a day.
const DAY: u32 = 86_400;

/// What the lines so far say. Two pairs of numbers may be the wrong way round until the last
/// line, so they stand apart from the other parameters.
#[derive(Debug, Drop)]
pub(crate) struct Draft {
    params: Params,
    recipient_limit: u32,
    recipient_minimum: u32,
    minimal_backoff: u32,
    maximal_backoff: u32,
    /// For each parameter the line that set it, and 0 where none did.
    lines: [u64; Parameter::COUNT],
}

impl Model for Draft {
    ghost use Rattle.q_params.specs.Readings.{SettingsSoFar};

    ghost Value = { SettingsSoFar };

    ghost use Rattle.q_params.specs.Drafts.{reading_of, HasPairsInRange};

    ghost view = { reading_of };

    ghost invariant = { HasPairsInRange };
}

/// A cost is 0, which is off, or from 2 to 1,000.
fn cost(text: &[u8]) -> Option<u32>
    ensures exact { result ≡ cost_of text.now }
    ensures within { IfSome result (λ n. (n ≤ 1000) × (n ≢ 1)) }
{
    let cost = read_number32(text, 0, 1_000)?;
    if cost == 1 { None } else { Some(cost) }
}

impl Draft {
    /// Nothing is read yet.
    pub(crate) fn new() -> Draft
        ensures { result ≡ nothing_read }
    {
        let params = Params::defaults();
        let recipient_limit = params.qmgr_message_recipient_limit;
        let recipient_minimum = params.qmgr_message_recipient_minimum;
        let minimal_backoff = params.minimal_backoff_time;
        let maximal_backoff = params.maximal_backoff_time;
        Draft {
            params,
            recipient_limit,
            recipient_minimum,
            minimal_backoff,
            maximal_backoff,
            lines: [0; Parameter::COUNT],
        }
    }

    /// Sets a parameter to the value that a text is, if it is one.
    #[tactic(auto, unfolding(crate::specs::Values::set_to))]
    fn set(&mut self, parameter: Parameter, text: &[u8]) -> Option<()>
        ensures { Sets parameter text.now self.old self.new result }
    {
        let number = |low: u32, high: u32| read_number32(text, low, high);
        let params = &mut self.params;
        match parameter {
            Parameter::ActiveLimit => params.qmgr_message_active_limit = number(1, 50_000)?,
            Parameter::RecipientLimit => self.recipient_limit = number(1, 100_000)?,
            Parameter::RecipientMinimum => self.recipient_minimum = number(1, 100_000)?,
            Parameter::InitialConcurrency => params.initial_destination_concurrency = number(
                1, 40,
            )?,
            Parameter::ConcurrencyLimit => params.default_destination_concurrency_limit = number(
                1, 40,
            )?,
            Parameter::EntryLimit => params.default_destination_recipient_limit = number(1, 1_000)?,
            Parameter::PositiveFeedback =>
                params.default_destination_concurrency_positive_feedback = Feedback::parse(text)?,
            Parameter::NegativeFeedback =>
                params.default_destination_concurrency_negative_feedback = Feedback::parse(text)?,
            Parameter::FailedCohortLimit =>
                params.default_destination_concurrency_failed_cohort_limit = number(0, 100)?,
            Parameter::ProcessLimit => params.default_process_limit = number(1, 1_000)?,
            Parameter::SlotCost => params.default_delivery_slot_cost = cost(text)?,
            Parameter::SlotLoan => params.default_delivery_slot_loan = number(0, 1_000)?,
            Parameter::SlotDiscount => params.default_delivery_slot_discount = number(0, 100)?,
            Parameter::MinimumSlots => params.default_minimum_delivery_slots = number(0, 10_000)?,
            Parameter::QueueRunDelay => params.queue_run_delay = seconds(text, 1, 1)?,
            Parameter::MinimalBackoff => self.minimal_backoff = seconds(text, 1, 1)?,
            Parameter::MaximalBackoff => self.maximal_backoff = seconds(text, 1, 1)?,
            Parameter::QueueLifetime => params.maximal_queue_lifetime = seconds(text, 0, DAY)?,
            Parameter::BounceLifetime => params.bounce_queue_lifetime = seconds(text, 0, DAY)?,
            Parameter::MarkSyncLimit => params.mark_sync_limit = number(1, 16)?,
            Parameter::RateDelay => params.default_destination_rate_delay = seconds(text, 0, 1)?,
        }
        Some(())
    }

    /// Sets a parameter by the line of this number.
    fn set_at(&mut self, number: u64, value: &[u8], parameter: Parameter) -> Result<(), ParamCause>
        ensures { BecomesSettings result self.new (set_at number self.old value.now parameter) }
    {
        if self.lines[parameter.place()] != 0 {
            return Err(ParamCause::Twice);
        }
        if self.set(parameter, value).is_none() {
            return Err(ParamCause::BadValue);
        }
        self.lines[parameter.place()] = number;
        Ok(())
    }

    /// Sets the parameter of this name.
    fn set_named(&mut self, number: u64, name: &[u8], value: &[u8]) -> Result<(), ParamCause>
        ensures { BecomesSettings result self.new (set_named number self.old name.now value.now) }
    {
        match Parameter::named(name) {
            Some(parameter) => self.set_at(number, value, parameter),
            None => Err(ParamCause::UnknownName),
        }
    }

    /// Reads a line that isn't passed over.
    fn read_setting(&mut self, number: u64, line: &[u8]) -> Result<(), ParamCause>
        ensures { BecomesSettings result self.new (read_setting number self.old line.now) }
    {
        let Some((name, value)) = cut(line, b'=') else {
            return Err(ParamCause::NoEquals);
        };
        self.set_named(number, trim(name), trim(value))
    }

    /// Reads the line of this number.
    pub(crate) fn read_line(&mut self, number: u64, line: &[u8]) -> Result<(), ParamCause>
        ensures { BecomesSettings result self.new (read_setting_line number self.old line.now) }
    {
        if is_passed_over(line) {
            return Ok(());
        }
        if !is_text(line) {
            return Err(ParamCause::NotText);
        }
        self.read_setting(number, line)
    }

    /// The line that set a parameter, and 0 where none did.
    fn line(&self, parameter: Parameter) -> u64
        ensures { result ≡ setting_line self.now parameter }
    {
        self.lines[parameter.place()]
    }

    /// The line at which two parameters disagree.
    fn disagreement(&self) -> Option<u64>
        ensures { result ≡ least nat_lt (disagreements self.now) }
    {
        let limit = self.line(Parameter::RecipientLimit);
        let recipients = limit.max(self.line(Parameter::RecipientMinimum));
        let recipients = (self.recipient_limit < self.recipient_minimum).then_some(recipients);
        let maximal = self.line(Parameter::MaximalBackoff);
        let backoff = maximal.max(self.line(Parameter::MinimalBackoff));
        let backoff = (self.maximal_backoff < self.minimal_backoff).then_some(backoff);
        match (recipients, backoff) {
            (Some(a), Some(b)) => Some(a.min(b)),
            (Some(a), None) => Some(a),
            (None, b) => b,
        }
    }

    /// The parameters, unless two of them disagree.
    pub(crate) fn finish(&self) -> Result<Params, ParamError>
        ensures { result ≡ agreed self.now }
    {
        if let Some(line) = self.disagreement() {
            return Err(ParamError {
                line,
                cause: ParamCause::BadValue,
            });
        }
        let mut params = self.params;
        params.qmgr_message_recipient_limit = self.recipient_limit;
        params.qmgr_message_recipient_minimum = self.recipient_minimum;
        params.minimal_backoff_time = self.minimal_backoff;
        params.maximal_backoff_time = self.maximal_backoff;
        Ok(params)
    }
}
