//! The objects of messages and of their pending recipients, as values of JSON (RFC 8259).
ghost use Rattle.std.specs.Prelude.{◌≡◌, IfOk, map, string_bytes};
ghost use Rattle.std.specs.Str.{IsAscii};
ghost use Rattle.q_listing.specs.Listings.{queue_text};
ghost use Rattle.q_model.specs.IdTexts.{id_text};
ghost use Rattle.q_views.specs.JsonLines.{object_with, reason_text, recipient_data, sender_name};
ghost use Rattle.serde_json.specs.View.{view};

use q_listing::queue_text;
use q_model::{Address, Id, NoMemory, Place, id_name};
use q_walk::Found;
use serde_json::{Map, Value, json, put};
use std::alloc::Global;
use std::str;

/// The text of ASCII bytes.
fn text_of(bytes: &[u8]) -> &str
    requires { IsAscii bytes.now }
    ensures { result.now ≡ bytes.now }
{
    let Ok(text) = str::from_utf8(bytes) else {
        unreachable!()
    };
    text
}

fn address_text(address: &Address) -> &str
    ensures { result.now ≡ address.now }
{
    text_of(address.bytes())
}

/// The sender; the null sender has the name that postqueue(1) gives it.
fn sender_text(sender: &Option<Address>) -> &str
    ensures { result.now ≡ sender_name sender.now }
{
    match sender {
        Some(address) => address_text(address),
        None => "MAILER-DAEMON",
    }
}

fn queue_value(alloc: Global, place: Place) -> Result<String, NoMemory>
    ensures { IfOk result (λ s. string_bytes s ≡ queue_text place) }
{
    Ok(String::from_str(alloc, text_of(queue_text(place)))?)
}

fn id_value(alloc: Global, id: Id) -> Result<String, NoMemory>
    ensures { IfOk result (λ s. string_bytes s ≡ id_text id) }
{
    let name = id_name(id);
    Ok(String::from_str(alloc, text_of(name.bytes()))?)
}

/// The last code; 0 stands for no reply.
fn reason_text(alloc: Global, code: u16) -> Result<String, NoMemory>
    ensures { IfOk result (λ s. string_bytes s ≡ reason_text code) }
{
    if code == 0 {
        return Ok(String::from_str(alloc, "no reply")?);
    }
    Ok(u64::from(code).to_string(alloc)?)
}

/// The object of a recipient, with the last code that was noted of it.
pub(crate) fn recipient_value(
    alloc: Global,
    code: Option<u16>,
    address: &Address,
) -> Result<Value, NoMemory>
    ensures { IfOk result (λ v. view v ≡ recipient_data code address.now) }
{
    let address = address_text(address);
    let Some(code) = code else {
        return Ok(json!(in alloc; {"address": address})?);
    };
    let reason = reason_text(alloc, code)?;
    Ok(json!(in alloc; {"address": address, "delay_reason": reason})?)
}

/// The object of a message that was found, with those of its recipients.
pub(crate) fn message_value(
    alloc: Global,
    found: &Found,
    recipients: Vec<Value>,
) -> Result<Value, NoMemory>
    ensures { IfOk result (λ v. view v ≡ object_with (queue_text found.now.place) found.now.id
        found.now.head.head.arrival found.now.head.content_len found.now.head.head.sender
        (map view recipients.items)) }
{
    let head = &found.head;
    let queue = queue_value(alloc, found.place)?;
    let id = id_value(alloc, found.id)?;
    let sender = Value::try_from_str(alloc, sender_text(&head.head.sender))?;
    let mut members = Map::new(alloc);
    put(
        &mut members,
        alloc,
        "arrival_time",
        Value::from(head.head.arrival),
    )?;
    put(&mut members, alloc, "forced_expire", Value::Bool(false))?;
    put(
        &mut members,
        alloc,
        "message_size",
        Value::from(head.content_len),
    )?;
    put(&mut members, alloc, "queue_id", Value::String(id))?;
    put(&mut members, alloc, "queue_name", Value::String(queue))?;
    put(&mut members, alloc, "recipients", Value::Array(recipients))?;
    put(&mut members, alloc, "sender", sender)?;
    Ok(Value::Object(members))
}
