//! Words that are values.
ghost use Rattle.std.specs.Prelude.{◌≡◌};
ghost use Rattle.q_text.specs.ValueTexts.{code_behind, later_of, mapped_of, never_of, outcome_of, plain_of, receiver_of, sender_of_text, state_of_text, trigger_of};

use q_model::{Address, Outcome, Receiver, SiteState, Trigger};
use q_numbers::{cut, read_number};

/// A recipient by its address alone.
pub fn read_plain(text: &[u8]) -> Option<Receiver>
    ensures { result ≡ plain_of text.now }
{
    let address = Address::new(text)?;
    Some(Receiver {
        address,
        original: None,
    })
}

/// Two addresses, of which the second is the original one.
fn read_mapped(address: &[u8], original: &[u8]) -> Option<Receiver>
    ensures { result ≡ mapped_of (address.now, original.now) }
{
    let address = Address::new(address)?;
    let original = Address::new(original)?;
    let original = if original == address {
        None
    } else {
        Some(original)
    };
    Some(Receiver { address, original })
}

/// A recipient: `ADDRESS` or `ADDRESS,ORIGINAL`.
pub fn read_receiver(text: &[u8]) -> Option<Receiver>
    ensures { result ≡ receiver_of text.now }
{
    match cut(text, b',') {
        Some((address, original)) => read_mapped(address, original),
        None => read_plain(text),
    }
}

/// An address, or `<>` for the null sender.
pub fn read_sender(text: &[u8]) -> Option<Option<Address>>
    ensures { result ≡ sender_of_text text.now }
{
    if text == b"<>".as_slice() {
        return Some(None);
    }
    let address = Address::new(text)?;
    Some(Some(address))
}

/// `up` or `down`.
pub fn read_state(text: &[u8]) -> Option<SiteState>
    ensures { result ≡ state_of_text text.now }
{
    if text == b"up".as_slice() {
        Some(SiteState::Up)
    } else if text == b"down".as_slice() {
        Some(SiteState::Down)
    } else {
        None
    }
}

/// `D`, `A` or `F`.
pub fn read_trigger(text: &[u8]) -> Option<Trigger>
    ensures { result ≡ trigger_of text.now }
{
    match text {
        b"D" => Some(Trigger::D),
        b"A" => Some(Trigger::A),
        b"F" => Some(Trigger::F),
        _ => None,
    }
}

/// The code behind such a front.
fn code_behind(text: &[u8], front: &[u8], low: u16, high: u16) -> Option<u16>
    ensures { result ≡ code_behind front.now low high text.now }
{
    if !text.starts_with(front) {
        return None;
    }
    let number = read_number(&text[front.len()..], u64::from(low), u64::from(high))?;
    Some(number as u16)
}

fn later(text: &[u8]) -> Option<Outcome>
    ensures { result ≡ later_of text.now }
{
    if text == b"later".as_slice() {
        return Some(Outcome::Later(0));
    }
    Some(Outcome::Later(code_behind(text, b"later:", 400, 499)?))
}

fn never(text: &[u8]) -> Option<Outcome>
    ensures { result ≡ never_of text.now }
{
    if text == b"never".as_slice() {
        return Some(Outcome::Never(0));
    }
    Some(Outcome::Never(code_behind(text, b"never:", 500, 599)?))
}

fn outcome_up(text: &[u8]) -> Option<Outcome>
    ensures { result ≡ outcome_of SiteState.Up text.now }
{
    if text == b"ok".as_slice() {
        return Some(Outcome::Ok);
    }
    match later(text) {
        Some(outcome) => Some(outcome),
        None => never(text),
    }
}

/// The outcome that a word is, where the site is in this state: `later` alone where it is down.
/// A code is from 400 to 499 behind `later:`, and from 500 to 599 behind `never:`.
pub fn read_outcome(text: &[u8], state: SiteState) -> Option<Outcome>
    ensures { result ≡ outcome_of state text.now }
{
    match state {
        SiteState::Up => outcome_up(text),
        SiteState::Down => later(text),
    }
}
