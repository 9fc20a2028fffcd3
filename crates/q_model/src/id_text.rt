//! The names of the files of messages, and the ids in them.
ghost use Rattle.std.specs.Prelude.{◌≡◌, ◌≢◌, ◌<◌, ◌≤◌, ◌+◌, ◌^◌, ◌++◌, ℕ, length, Some, IfSome, IfNone, IsTrue, ◌↔◌};
ghost use Rattle.q_model.specs.declared.id.Id.{Id};
ghost use Rattle.q_model.specs.IdTexts.{decimals, due_text, hex, hex_digit, id_text, IsId};

use crate::id::{Id, Moment};
use crate::name::Name;
use crate::padded::Padded;
use std::str;

/// The least moment that has no twelve digits.
const DUE_END: Moment = 1_000_000_000_000;

fn hex_digit(digit: u32) -> u8
    requires { digit < 16 }
    ensures { result ≡ hex_digit digit }
{
    if digit < 10 {
        b'0' + digit as u8
    } else {
        b'a' - 10 + digit as u8
    }
}

/// Adds the last `count` hexadecimal digits of the number.
fn append_hex(text: &mut Padded<40>, count: u8, number: u32)
    requires { length text.old + count ≤ 40 }
    ensures text { text.new ≡ text.old ++ hex count number }
    ensures longer { length text.new ≡ length text.old + count }
{
    if count == 0 {
        return;
    }
    append_hex(text, count - 1, number / 16);
    text.append(&[hex_digit(number % 16)]);
}

/// Adds the last `count` decimal digits of the number.
fn append_decimals(text: &mut Padded<40>, count: u8, number: u64)
    requires { length text.old + count ≤ 40 }
    ensures text { text.new ≡ text.old ++ decimals count number }
    ensures longer { length text.new ≡ length text.old + count }
{
    if count == 0 {
        return;
    }
    append_decimals(text, count - 1, number / 10);
    text.append(&[b'0' + (number % 10) as u8]);
}

fn append_id(text: &mut Padded<40>, id: Id)
    requires { length text.old ≤ 22 }
    ensures { text.new ≡ text.old ++ id_text id }
{
    append_hex(text, 8, id.generation);
    text.append(b"-");
    append_hex(text, 8, id.serial);
    if id.bounce {
        text.append(b"b");
    }
}

/// The name of a message's file in incoming, active, hold and corrupt, and of its logs: the
/// generation and the serial, each in 8 hexadecimal digits, with a `-` between them, and a `b`
/// behind a bounce.
pub fn id_name(id: Id) -> Name
    ensures { result ≡ id_text id }
{
    let mut name = Padded::new(b"");
    append_id(&mut name, id);
    Name::from_text(name)
}

/// The name of a message's file in deferred: the moment from which it is due in 12 decimal
/// digits, a `-`, and the id. So such names stand in the order of their moments.
pub fn due_name(due: Moment, id: Id) -> Name
    requires { due < 10 ^ 12 }
    ensures { result ≡ due_text due id }
{
    let mut name = Padded::new(b"");
    append_decimals(&mut name, 12, due);
    name.append(b"-");
    append_id(&mut name, id);
    Name::from_text(name)
}

/// The number that 8 hexadecimal digits spell; of other bytes any answer.
fn hex_number(digits: &[u8]) -> Option<u32>
    ensures { (n : ℕ) → n < 2 ^ 32 → hex 8 n ≡ digits.now → result ≡ Some n }
{
    let Ok(text) = str::from_utf8(digits) else {
        return None;
    };
    u32::from_str_radix(text, 16).ok()
}

/// The number that 12 decimal digits spell; of other bytes any answer.
fn decimal_number(digits: &[u8]) -> Option<u64>
    ensures { (n : ℕ) → n < 10 ^ 12 → decimals 12 n ≡ digits.now → result ≡ Some n }
{
    let Ok(text) = str::from_utf8(digits) else {
        return None;
    };
    u64::from_str_radix(text, 10).ok()
}

/// The id that the bytes spell; of bytes that spell none any answer.
fn read_id(bytes: &[u8]) -> Option<Id>
    ensures { (id : Id) → IsId id → id_text id ≡ bytes.now → result ≡ Some id }
{
    let (generation, rest) = bytes.split_at_checked(8)?;
    let (_, rest) = rest.split_at_checked(1)?;
    let (serial, rest) = rest.split_at_checked(8)?;
    Some(Id {
        generation: hex_number(generation)?,
        serial: hex_number(serial)?,
        bounce: !rest.is_empty(),
    })
}

/// Whether both numbers of the id are at least 1.
fn is_lawful(id: Id) -> bool
    ensures { IsTrue result ↔ IsId id }
{
    id.generation > 0 && id.serial > 0
}

/// The id with this name. `None` where the name isn't an id's: 8 hexadecimal digits in lower
/// case from 1 on, `-`, 8 more from 1 on, and at most one `b`.
pub fn id_of(name: Name) -> Option<Id>
    ensures some { IfSome result (λ id. IsId id × (id_text id ≡ name)) }
    ensures none { IfNone result ((id : Id) → IsId id → id_text id ≢ name) }
{
    let id = read_id(name.bytes())?;
    if !is_lawful(id) || id_name(id) != name {
        return None;
    }
    Some(id)
}

/// The moment and the id that the bytes spell; of bytes that spell none any answer.
fn read_due(bytes: &[u8]) -> Option<(Moment, Id)>
    ensures { (due : ℕ) → (id : Id) → due < 10 ^ 12 → IsId id → due_text due id ≡ bytes.now
        → result ≡ Some (due, id) }
{
    let (digits, rest) = bytes.split_at_checked(12)?;
    let (_, rest) = rest.split_at_checked(1)?;
    Some((decimal_number(digits)?, read_id(rest)?))
}

/// The moment and the id with this name in deferred. `None` where the name isn't 12 decimal
/// digits, `-`, and an id.
pub fn due_of(name: Name) -> Option<(Moment, Id)>
    ensures some { IfSome result (λ d. (d.0 < 10 ^ 12) × IsId d.1 × (due_text d.0 d.1 ≡ name)) }
    ensures none { IfNone result
        ((due : ℕ) → (id : Id) → due < 10 ^ 12 → IsId id → due_text due id ≢ name) }
{
    let (due, id) = read_due(name.bytes())?;
    if due >= DUE_END || !is_lawful(id) || due_name(due, id) != name {
        return None;
    }
    Some((due, id))
}
