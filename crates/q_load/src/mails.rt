//! The mails of a load.
ghost use Rattle.std.specs.Prelude.{◌<◌, ◌≡◌, ◌≤◌, ◌++◌, decimal, IfOk, OnOk, true};
ghost use Rattle.q_engine.specs.Heard.{IsEventInForm};
ghost use Rattle.q_model.specs.Texts.{is_address};
ghost use Rattle.q_load.specs.Mails.{all_recipients, mail, receiver, recipient, recipient_count, recipients};

use crate::numbers::next_number;
use q_model::{Address, Addresses, Bytes, Event, NoMemory, Receiver};
use std::alloc::Global;

/// How many recipients the mail of a number has.
fn recipient_count(number: u32) -> u32
    ensures exact { result ≡ recipient_count number }
    ensures few { result ≤ 20 }
{
    1 + number / 65_536 % 20
}

fn add(text: &mut Vec<u8>, bytes: &[u8]) -> Result<(), NoMemory>
    ensures { OnOk result (text.new.items ≡ text.old.items ++ bytes.now) }
{
    text.extend_from_slice(bytes)?;
    Ok(())
}

fn add_number(alloc: Global, text: &mut Vec<u8>, number: u64) -> Result<(), NoMemory>
    ensures { OnOk result (text.new.items ≡ text.old.items ++ decimal number) }
{
    let digits = number.to_string(alloc)?;
    add(text, digits.as_bytes())
}

/// The address of a recipient, by its place among those of the mail.
fn recipient_text(alloc: Global, number: u32, place: u32) -> Result<Vec<u8>, NoMemory>
    ensures { IfOk result (λ text. text.items ≡ recipient number place) }
{
    let mut text = Vec::new(alloc);
    add(&mut text, b"u")?;
    add_number(alloc, &mut text, u64::from(place))?;
    add(&mut text, b"@d")?;
    add_number(
        alloc,
        &mut text,
        (u64::from(number) + u64::from(place)) % 40,
    )?;
    add(&mut text, b".example")?;
    Ok(text)
}

/// The address of these bytes.
fn address_of(text: &[u8]) -> Address
    requires { is_address text.now ≡ true }
    ensures { result ≡ text.now }
{
    match Address::new(text) {
        Some(address) => address,
        None => unreachable!(),
    }
}

fn recipient(alloc: Global, number: u32, place: u32) -> Result<Receiver, NoMemory>
    requires { place < 20 }
    ensures { IfOk result (λ r. r ≡ receiver number place) }
{
    let text = recipient_text(alloc, number, place)?;
    let address = address_of(text.as_slice());
    Ok(Receiver {
        address,
        original: None,
    })
}

fn recipients(alloc: Global, number: u32) -> Result<Addresses, NoMemory>
    ensures { IfOk result (λ to. to ≡ recipients number) }
{
    let mut to = Addresses::new(alloc);
    for place in 0..recipient_count(number) {
        to.push(recipient(alloc, number, place)?)?;
    }
    Ok(to)
}

/// The mail of a number.
pub(crate) fn mail(alloc: Global, number: u32) -> Result<Event, NoMemory>
    ensures exact { IfOk result (λ event. event ≡ mail number) }
    ensures form { IfOk result IsEventInForm }
{
    let sender = address_of(b"s@load.example");
    let to = recipients(alloc, number)?;
    Ok(Event::Mail {
        sender: Some(sender),
        to,
        content: Bytes::new(alloc),
    })
}

/// How many recipients the mails of a load have together.
pub(crate) fn all_recipients(mails: u32) -> u64
    ensures { result ≡ all_recipients mails }
{
    let mut number = mails;
    let mut sum = 0;
    for _ in 0..mails {
        number = next_number(number);
        sum += u64::from(recipient_count(number));
    }
    sum
}
