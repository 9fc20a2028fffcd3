//! The parameters in force.
ghost use Rattle.std.specs.Prelude.{◌≡◌, ◌++◌, IfOk, OnOk, option_map};
ghost use Rattle.q_conf_texts.specs.Params.{default_text, parameter_line, params_text, setting_of, value_in, value_text};
ghost use Rattle.q_conf_texts.specs.Settings.{setting_at};

use crate::text::{add, add_number};
use q_model::NoMemory;
use q_numbers::cut;
use q_params::Parameter;
use q_text::{first_line, is_passed_over, trim};
use std::alloc::Global;

/// The line that sets a parameter, counted from 1, and the value as it stands there.
#[derive(Clone, Copy, Debug)]
struct Setting<'a> {
    line: u64,
    value: &'a [u8],
}

/// The value of a parameter that no line sets.
fn default_text(parameter: Parameter) -> &'static [u8]
    ensures { result.now ≡ default_text parameter }
{
    match parameter {
        Parameter::ActiveLimit => b"20000",
        Parameter::RecipientLimit => b"20000",
        Parameter::RecipientMinimum => b"10",
        Parameter::InitialConcurrency => b"5",
        Parameter::ConcurrencyLimit => b"20",
        Parameter::EntryLimit => b"50",
        Parameter::PositiveFeedback => b"1",
        Parameter::NegativeFeedback => b"1",
        Parameter::FailedCohortLimit => b"1",
        Parameter::ProcessLimit => b"100",
        Parameter::SlotCost => b"5",
        Parameter::SlotLoan => b"3",
        Parameter::SlotDiscount => b"50",
        Parameter::MinimumSlots => b"3",
        Parameter::QueueRunDelay => b"300s",
        Parameter::MinimalBackoff => b"300s",
        Parameter::MaximalBackoff => b"4000s",
        Parameter::QueueLifetime => b"5d",
        Parameter::BounceLifetime => b"5d",
        Parameter::MarkSyncLimit => b"1",
        Parameter::RateDelay => b"0s",
    }
}

/// The value to which a line sets a parameter.
fn value_in(parameter: Parameter, line: &[u8]) -> Option<&[u8]>
    ensures { option_map (λ value. value.now) result ≡ value_in parameter line.now }
{
    if is_passed_over(line) {
        return None;
    }
    let (name, value) = cut(line, b'=')?;
    if trim(name) == parameter.name() {
        Some(trim(value))
    } else {
        None
    }
}

/// The first line that sets a parameter.
fn setting_of(parameter: Parameter, bytes: &[u8]) -> Option<Setting<'_>>
    ensures { option_map setting_at result ≡ setting_of parameter bytes.now }
{
    let mut number = 0;
    let mut rest = bytes;
    while !rest.is_empty() {
        let (line, others) = first_line(rest);
        number += 1;
        if let Some(value) = value_in(parameter, line) {
            return Some(Setting {
                line: number,
                value,
            });
        }
        rest = others;
    }
    None
}

/// Adds the value of a parameter, and where a line sets it the line's number and the default.
fn add_value(
    alloc: Global,
    text: &mut Vec<u8>,
    parameter: Parameter,
    setting: Option<Setting<'_>>,
) -> Result<(), NoMemory>
    ensures { OnOk result (text.new.items
        ≡ text.old.items ++ value_text parameter (option_map setting_at setting.entry)) }
{
    let Some(Setting { line, value }) = setting else {
        return add(text, default_text(parameter));
    };
    add(text, value)?;
    add(text, b" (line ")?;
    add_number(alloc, text, line)?;
    add(text, b", default ")?;
    add(text, default_text(parameter))?;
    add(text, b")")
}

/// Adds the line of a parameter.
fn add_parameter(
    alloc: Global,
    text: &mut Vec<u8>,
    parameter: Parameter,
    bytes: &[u8],
) -> Result<(), NoMemory>
    ensures { OnOk result (text.new.items
        ≡ text.old.items ++ parameter_line bytes.now parameter) }
{
    add(text, parameter.name())?;
    add(text, b" = ")?;
    add_value(alloc, text, parameter, setting_of(parameter, bytes))?;
    add(text, b"\n")
}

/// A line for each parameter, by the bytes of the parameter file.
#[tactic(auto, unfolding(crate::specs::Params::params_text))]
pub(crate) fn params_text(alloc: Global, bytes: &[u8]) -> Result<Vec<u8>, NoMemory>
    ensures { IfOk result (λ text. text.items ≡ params_text bytes.now) }
{
    let mut text = Vec::new(alloc);
    for parameter in Parameter::ALL {
        add_parameter(alloc, &mut text, parameter, bytes)?;
    }
    Ok(text)
}
