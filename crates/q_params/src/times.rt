//! Times as values of parameters.
ghost use Rattle.std.specs.Prelude.{◌≡◌, ◌<◌, ◌≤◌, IfSome, length, OnSome};
ghost use Rattle.q_params.specs.Times.{counted_in_units, last_unit, seconds_within, unit_of};

use q_numbers::read_number32;

/// The longest time, in seconds.
const LONGEST: u32 = 9_999_999;

/// How many seconds a unit counts.
fn unit(letter: u8) -> Option<u32>
    ensures exact { result ≡ unit_of letter }
    ensures within { IfSome result (λ n. n ≤ 604800) }
{
    match letter {
        b's' => Some(1),
        b'm' => Some(60),
        b'h' => Some(3_600),
        b'd' => Some(86_400),
        b'w' => Some(604_800),
        _ => None,
    }
}

/// The unit at the end of a text.
fn last_unit(text: &[u8]) -> Option<u32>
    ensures exact { result ≡ last_unit text.now }
    ensures within { IfSome result (λ n. n ≤ 604800) }
    ensures filled { OnSome result (0 < length text.now) }
{
    let letter = text.last()?;
    unit(*letter)
}

/// So many times the unit, where that is from `low` seconds to the longest time.
fn counted(text: &[u8], low: u32, unit: u32) -> Option<u32>
    requires { unit ≤ 604800 }
    ensures exact { result ≡ counted_in_units low 9999999 unit text.now }
    ensures within { IfSome result (λ n. (low ≤ n) × (n ≤ 9999999)) }
{
    let number = read_number32(text, 0, LONGEST)?;
    let seconds = u64::from(number) * u64::from(unit);
    if seconds < u64::from(low) || seconds > u64::from(LONGEST) {
        return None;
    }
    Some(seconds as u32)
}

/// The seconds of a time (postconf(5)): a number and `s`, `m`, `h`, `d` or `w`, or a number alone,
/// which counts `alone` seconds each. The time is from `low` to 9,999,999 seconds.
pub(crate) fn seconds(text: &[u8], low: u32, alone: u32) -> Option<u32>
    requires { alone ≤ 604800 }
    ensures exact { result ≡ seconds_within low 9999999 alone text.now }
    ensures within { IfSome result (λ n. (low ≤ n) × (n ≤ 9999999)) }
{
    match last_unit(text) {
        Some(unit) => counted(&text[..text.len() - 1], low, unit),
        None => counted(text, low, alone),
    }
}
