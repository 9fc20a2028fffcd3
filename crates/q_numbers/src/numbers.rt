//! Numbers in texts: decimal digits, with neither a sign nor leading zeros.
ghost use Rattle.std.specs.Prelude.{◌≡◌, ◌≤◌, ◌<◌, ◌^◌, decimal, IfSome, SomeIff, true, ℕ};
ghost use Rattle.std.specs.Char.{is_ascii_digit};
ghost use Rattle.std.specs.List.{list_all};
ghost use Rattle.std.specs.Str.Parse.{digits_value};
ghost use Rattle.q_numbers.specs.Numbers.{is_number, number_within};

use std::str;

fn are_digits(text: &[u8]) -> bool
    ensures { result ≡ list_all is_ascii_digit text.now }
{
    text.iter().all(|b| b.is_ascii_digit())
}

fn is_number(text: &[u8]) -> bool
    ensures { result ≡ is_number text.now }
{
    let digits = are_digits(text);
    match text {
        [] => false,
        [_] => digits,
        [first, ..] => digits & (*first != b'0'),
    }
}

/// The number that a text writes, unless it is above `u64::MAX`.
fn value(text: &[u8]) -> Option<u64>
    requires { is_number text.now ≡ true }
    ensures { SomeIff result (digits_value 10 text.now < 2 ^ 64) (digits_value 10 text.now) }
{
    match str::from_utf8(text) {
        Ok(text) => text.parse().ok(),
        Err(_) => None,
    }
}

fn number(text: &[u8], low: u64, high: u64) -> Option<u64>
    ensures exact { result ≡ number_within low high text.now }
    ensures within { IfSome result (λ n. (low ≤ n) × (n ≤ high)) }
{
    if !is_number(text) {
        return None;
    }
    let number = value(text)?;
    if number < low || number > high {
        return None;
    }
    Some(number)
}

/// The number that a text writes in decimal, without a sign and without leading zeros, where it
/// is from `low` to `high`.
pub fn read_number(text: &[u8], low: u64, high: u64) -> Option<u64>
    ensures exact { result ≡ number_within low high text.now }
    ensures within { IfSome result (λ n. (low ≤ n) × (n ≤ high)) }
    ensures written { IfSome result (λ n. text.now ≡ decimal n) }
    ensures only { (n : ℕ) → low ≤ n → n ≤ high → text.now ≡ decimal n → result ≡ Some n }
{
    number(text, low, high)
}

/// The same of a number in 32 bits.
pub fn read_number32(text: &[u8], low: u32, high: u32) -> Option<u32>
    ensures exact { result ≡ number_within low high text.now }
    ensures within { IfSome result (λ n. (low ≤ n) × (n ≤ high)) }
{
    let number = read_number(text, u64::from(low), u64::from(high))?;
    Some(number as u32)
}
